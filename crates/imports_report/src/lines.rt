// The lines of imports.
ghost use Rattle.std.specs.Prelude.{◌≡◌, ◌++◌, IfOk, OnOk, string_bytes};
ghost use Rattle.serde_json.specs.View.{view};
ghost use Rattle.imports_report.specs.Lines.{import_line, import_lines, import_value, kind_name};

use es_imports::{Import, ImportKind};
use serde_json::{Value, json};
use std::alloc::{AllocError, Global};

/// A line for each import, in order.
pub(crate) fn lines_of(alloc: Global, imports: &[Import]) -> Result<String, AllocError>
    ensures { IfOk result (λ lines. string_bytes lines ≡ import_lines imports.now) }
{
    let mut lines = String::new(alloc);
    for import in imports {
        put_line(alloc, &mut lines, import)?;
    }
    Ok(lines)
}

// Puts the line of an import.
fn put_line(alloc: Global, lines: &mut String, import: &Import) -> Result<(), AllocError>
    ensures { OnOk result (string_bytes lines.new ≡ string_bytes lines.old ++ import_line import.now) }
{
    let value = value_of_import(alloc, import)?;
    let text = value.to_string(alloc)?;
    lines.push_str(text.as_str())?;
    lines.push_str("\n")?;
    Ok(())
}

fn value_of_import(alloc: Global, import: &Import) -> Result<Value, AllocError>
    ensures { IfOk result (λ value. view value ≡ import_value import.now) }
{
    let kind = kind_name(import.kind);
    json!(in alloc; {
        "kind": kind,
        "place": import.place,
        "specifier": import.specifier.as_str(),
        "type": import.is_type
    })
}

// The form by which something is imported, in a word.
fn kind_name(kind: ImportKind) -> &'static str
    ensures { result.now ≡ kind_name kind }
{
    match kind {
        ImportKind::Static => "Static",
        ImportKind::Export => "Export",
        ImportKind::Dynamic => "Dynamic",
        ImportKind::Require => "Require",
        ImportKind::ImportEquals => "ImportEquals",
    }
}
