// The report on a source text.
ghost use Rattle.std.specs.Prelude.{string_bytes};
ghost use Rattle.std.specs.Result.{result_map_both};
ghost use Rattle.es_imports.specs.Imports.{Tells, imports_of};
ghost use Rattle.imports_report.specs.Cause.{Meets};
ghost use Rattle.imports_report.specs.Report.{imports_report, report_as};

use crate::cause::{SourceCause, SourceError};
use crate::lines::lines_of;
use es_imports::{Import, ScanError, scan_imports, scan_imports_jsx};
use std::alloc::Global;
use std::str;
use sugar_path::List;

/// The report on the bytes of a source text: a line for each of its imports, in the order of their places, or what is
/// wrong with it. Elements of JSX are read, or not.
#[tactic(auto, unfolding(crate::specs::Report::imports_report))]
pub fn imports_report_for(alloc: Global, bytes: &[u8], jsx: bool) -> Result<String, SourceError>
    ensures { Meets (result_map_both string_bytes (λ e. e) result) (imports_report jsx bytes.now) }
{
    match str::from_utf8(bytes) {
        Ok(text) => report_on(alloc, text, jsx),
        Err(e) => Err(SourceError::Refused(SourceCause::NotUtf8 {
            place: e.valid_up_to(),
        })),
    }
}

// The report on a text.
fn report_on(alloc: Global, text: &str, jsx: bool) -> Result<String, SourceError>
    ensures { Meets (result_map_both string_bytes (λ e. e) result) (report_as (imports_of jsx text.now)) }
{
    match imports_of(alloc, text, jsx) {
        Ok(imports) => Ok(lines_of(alloc, imports.as_slice())?),
        Err(ScanError::Refused { place, cause }) => {
            Err(SourceError::Refused(SourceCause::NoToken { place, cause }))
        }
        Err(ScanError::NoMemory) => Err(SourceError::NoMemory),
    }
}

fn imports_of(alloc: Global, text: &str, jsx: bool) -> Result<List<Import>, ScanError>
    ensures { Tells (imports_of jsx text.now) result }
{
    if jsx {
        scan_imports_jsx(alloc, text)
    } else {
        scan_imports(alloc, text)
    }
}
