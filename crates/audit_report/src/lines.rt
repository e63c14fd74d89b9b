// The lines of an audit.
ghost use Rattle.std.specs.Prelude.{◌≡◌, ◌∷◌, ◌++◌, [], false, IfOk, OnOk, string_bytes};
ghost use Rattle.serde_json.specs.View.{view};
ghost use Rattle.serde_json.specs.Written.{compact_text, has_float};
ghost use Rattle.audit_report.specs.Lines.{
  audit_lines,
  fault_value,
  finding_lines,
  finding_value,
  line_of,
  summary_value,
  unused_lines,
  unused_value,
};

use lock_audit::{Audit, Finding, Unused};
use lock_checks::EdgeFault;
use report_core::{value_of_locator, value_of_malformed, value_of_out_of_range};
use serde_json::{Value, json};
use std::alloc::{AllocError, Global};

/// A line for each finding, one for each unused entry, and the summary.
pub(crate) fn lines_of(alloc: Global, audit: &Audit) -> Result<String, AllocError>
    ensures { IfOk result (λ lines. string_bytes lines ≡ audit_lines audit.now) }
{
    let mut lines = String::new(alloc);
    put_findings(alloc, &mut lines, audit.findings.as_slice())?;
    put_unused(alloc, &mut lines, audit.unused.as_slice())?;
    put_line(alloc, &mut lines, value_of_summary(alloc, audit)?)?;
    Ok(lines)
}

// Puts the lines of findings, in order.
fn put_findings(alloc: Global, lines: &mut String, findings: &[Finding]) -> Result<(), AllocError>
    ensures { OnOk result (string_bytes lines.new
        ≡ string_bytes lines.old ++ finding_lines findings.now) }
{
    for finding in findings {
        put_line(alloc, lines, value_of_finding(alloc, finding)?)?;
    }
    Ok(())
}

// Puts the lines of entries that are unused, in order.
fn put_unused(alloc: Global, lines: &mut String, unused: &[Unused]) -> Result<(), AllocError>
    ensures { OnOk result (string_bytes lines.new
        ≡ string_bytes lines.old ++ unused_lines unused.now) }
{
    for entry in unused {
        put_line(alloc, lines, value_of_unused(alloc, entry)?)?;
    }
    Ok(())
}

// Puts the line of a value.
fn put_line(alloc: Global, lines: &mut String, value: Value) -> Result<(), AllocError>
    requires { has_float (view value) ≡ false }
    ensures { OnOk result (string_bytes lines.new ≡ string_bytes lines.old ++ line_of (view value)) }
{
    let text = value.to_string(alloc)?;
    lines.push_str(text.as_str())?;
    lines.push_str("\n")?;
    Ok(())
}

fn value_of_finding(alloc: Global, finding: &Finding) -> Result<Value, AllocError>
    ensures { IfOk result (λ value. view value ≡ finding_value finding.now) }
{
    let bound = value_of_locator(alloc, &finding.bound)?;
    let fault = value_of_fault(alloc, &finding.fault)?;
    let owner = value_of_locator(alloc, &finding.owner)?;
    json!(in alloc; {
        "bound": bound,
        "fault": fault,
        "name": finding.name.as_str(),
        "owner": owner
    })
}

fn value_of_fault(alloc: Global, fault: &EdgeFault) -> Result<Value, AllocError>
    ensures { IfOk result (λ value. view value ≡ fault_value fault.now) }
{
    match fault {
        EdgeFault::NotInRegistry => json!(in alloc; {"kind": "NotInRegistry"}),
        EdgeFault::NotLocked => json!(in alloc; {"kind": "NotLocked"}),
        EdgeFault::MalformedPackage { path } => value_of_malformed(alloc, path),
        EdgeFault::OutOfRange { range, version } => value_of_out_of_range(alloc, range, version),
    }
}

fn value_of_unused(alloc: Global, unused: &Unused) -> Result<Value, AllocError>
    ensures { IfOk result (λ value. view value ≡ unused_value unused.now) }
{
    let entry = json!(in alloc; {
        "name": unused.name.as_str(),
        "resolved": unused.resolved.as_str()
    })?;
    json!(in alloc; {"unused": entry})
}

fn value_of_summary(alloc: Global, audit: &Audit) -> Result<Value, AllocError>
    ensures { IfOk result (λ value. view value ≡ summary_value audit.now) }
{
    let findings = audit.findings.as_slice().len();
    let unused = audit.unused.as_slice().len();
    json!(in alloc; {"edges": audit.edges, "findings": findings, "unused": unused})
}
