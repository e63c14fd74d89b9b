// Four texts as one.
ghost use Rattle.std.specs.Prelude.{◌≡◌, ◌++◌, IfOk, string_bytes};

use std::alloc::{AllocError, Global};

// The four texts, one behind the other.
pub(crate) fn joined(
    alloc: Global,
    first: &str,
    second: &str,
    third: &str,
    fourth: &str,
) -> Result<String, AllocError>
    ensures { IfOk result (λ text. string_bytes text
        ≡ first.now ++ second.now ++ third.now ++ fourth.now) }
{
    let mut text = String::from_str(alloc, first)?;
    text.push_str(second)?;
    text.push_str(third)?;
    text.push_str(fourth)?;
    Ok(text)
}
