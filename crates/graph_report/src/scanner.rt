// What tells the imports of files.
ghost use Rattle.std.specs.Prelude.{codes};
ghost use Rattle.serde_json.specs.View.{view};
ghost use Rattle.json_reading.specs.Reading.{field_or};
ghost use Rattle.document_core.specs.Cause.{Meets};
ghost use Rattle.document_core.specs.Fields.{required};
ghost use Rattle.document_core.specs.declared.cause.Field.TheVariants as field;
ghost use Rattle.graph_report.specs.Given.{scanner_of};
ghost use Rattle.graph_report.specs.declared.scanner.Scanner.TheVariants.{Lines};

use document_core::{Cause, DocumentError, Field};
use serde_json::Value;

/// What tells the imports of files.
#[derive(Clone, Copy, Debug, PartialEq, Eq)]
pub enum Scanner {
    /// The lines of a file, as `LineScan` reads them.
    Lines,
    /// Its tokens, as `EsScan` reads them.
    Es,
}

// What tells the imports of a document's files: their lines, where the document doesn't say.
pub(crate) fn scanner_in(value: &Value) -> Result<Scanner, DocumentError>
    ensures { Meets result (required field.Scanner
        (field_or (codes "scanner") Lines scanner_of (view value.now))) }
{
    let Some(scanner) = value.get("scanner") else {
        return Ok(Scanner::Lines);
    };
    match scanner.as_str() {
        Some("es") => Ok(Scanner::Es),
        Some("lines") => Ok(Scanner::Lines),
        _ => Err(DocumentError::Refused(Cause::BadField(Field::Scanner))),
    }
}
