// Writes trails as values of JSON.
ghost use Rattle.std.specs.Prelude.{◌≡◌, IfOk};
ghost use Rattle.serde_json.specs.View.{view};
ghost use Rattle.report_core.specs.Trails.{trail_value};

use serde_json::Value;
use std::alloc::{AllocError, Global};
use trail_texts::value_of_step;
use tree_core::Trail;

// The list of a trail's questions with their replies.
pub(crate) fn value_of_trail(alloc: Global, trail: &Trail) -> Result<Value, AllocError>
    ensures { IfOk result (λ value. view value ≡ trail_value trail.now) }
{
    let mut values = Vec::new(alloc);
    for step in trail.iter() {
        values.push(value_of_step(alloc, &step.0, &step.1)?)?;
    }
    Ok(Value::Array(values))
}
