// Writes requests as values of JSON.
ghost use Rattle.std.specs.Prelude.{◌≡◌, IfOk};
ghost use Rattle.serde_json.specs.View.{view};
ghost use Rattle.trail_texts.specs.TrailTexts.{importer_value, request_value};

use serde_json::{Value, json};
use std::alloc::{AllocError, Global};
use swc_loader::FileName;

/// A request, as an object of what asks and the specifier that it asks for.
pub fn value_of_request(
    alloc: Global,
    importer: &FileName,
    specifier: &str,
) -> Result<Value, AllocError>
    ensures { IfOk result (λ value. view value ≡ request_value importer.now specifier.now) }
{
    let from = value_of_importer(alloc, importer)?;
    json!(in alloc; {"from": from, "specifier": specifier})
}

fn value_of_importer(alloc: Global, importer: &FileName) -> Result<Value, AllocError>
    ensures { IfOk result (λ value. view value ≡ importer_value importer.now) }
{
    match importer {
        FileName::Real(text) => Value::try_from_str(alloc, text.as_str()),
        FileName::Custom(text) => json!(in alloc; {"custom": text.as_str()}),
        FileName::Anon => Ok(Value::Null),
    }
}
