// Reads counts.
ghost use Rattle.std.specs.Prelude.{◌≡◌, ◌^◌, ◌-◌, ℕ, min, IfSome, IfNone, length};
ghost use Rattle.std.specs.List.{list_all};
ghost use Rattle.trail_bundle.specs.Counts.{count_text};
ghost use Rattle.trail_bundle.specs.CountParts.{is_count, is_decimal};

/// The count that a text is, or the largest number where that is less.
pub(crate) fn count_in(text: &str) -> Option<u64>
    ensures some { IfSome result (λ n. (m : ℕ) × (text.now ≡ count_text m) × (n ≡ min m (2 ^ 64 - 1))) }
    ensures none { IfNone result ((m : ℕ) → text.now ≡ count_text m → ⊥) }
{
    if !is_count(text.as_bytes()) {
        return None;
    }
    match text.parse::<u64>() {
        Ok(count) => Some(count),
        Err(_) => Some(u64::MAX),
    }
}

// Whether a text is a count: one digit or more, and no zero in front of another one.
fn is_count(text: &[u8]) -> bool
    ensures { result ≡ is_count text.now }
{
    all_decimal(text) && !text.is_empty() && (text[0] != b'0' || text.len() == 1)
}

fn all_decimal(text: &[u8]) -> bool
    ensures { result ≡ list_all is_decimal text.now }
{
    text.iter().all(|c| is_decimal(*c))
}

fn is_decimal(c: u8) -> bool
    ensures { result ≡ is_decimal c }
{
    matches!(c, b'0'..=b'9')
}
