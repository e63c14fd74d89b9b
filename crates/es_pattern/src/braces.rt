// The bounds in braces.
ghost use Rattle.std.specs.Prelude.{
  ◌≡◌,
  ◌≤◌,
  ◌<◌,
  ◌==◌,
  ◌-◌,
  ◌↔◌,
  option_map,
  ℕ,
  IsTrue,
  Some,
  length,
  slice_index,
  IfSome,
  position,
};
ghost use Rattle.es_pattern.specs.Grammar.{number};
ghost use Rattle.es_pattern.specs.Reading.{bounds_of, second_bounds};
ghost use Rattle.es_pattern.specs.Bounds.{Bounded, Counts, padded};

// The greatest count of a quantifier.
pub(crate) const LIMIT: u32 = 1000;

// The bounds of a quantifier in braces, where a count above `LIMIT` stands for each such count.
#[derive(Clone, Copy, Debug, PartialEq, Eq)]
pub(crate) struct Bounds {
    pub least: u32,
    pub most: Option<u32>,
}

impl Bounds {
    // How many more than the least may come, if they are bounded.
    pub(crate) fn more(self) -> Option<u32>
        ensures { result ≡ option_map (λ most. most - self.least) self.most }
    {
        self.most.map(|most| most.saturating_sub(self.least))
    }
}

// The digit at that place of so many, with zeros before the digits.
fn digit_at(digits: &[char], width: usize, place: usize) -> char
    requires width { length digits.now ≤ width }
    requires place { place < width }
    ensures { result ≡ slice_index (padded width digits.now) place }
{
    let zeros = width - digits.len();
    if place < zeros {
        '0'
    } else {
        digits[place - zeros]
    }
}

// Whether the one number is at most the other, of any size.
fn is_at_most(least: &[char], most: &[char]) -> bool
    ensures { (n m : ℕ) → number least.now ≡ Some n → number most.now ≡ Some m → IsTrue result
        ↔ (n ≤ m) }
{
    let width = least.len().max(most.len());
    for place in 0..width {
        let a = digit_at(least, width, place);
        let b = digit_at(most, width, place);
        if a != b {
            return a < b;
        }
    }
    true
}

// The number of the digits, or the first above the limit.
fn count_of(digits: &[char]) -> Option<u32>
    ensures { Counts digits.now result }
{
    if digits.is_empty() {
        return None;
    }
    let mut count = 0u32;
    for digit in digits {
        if !digit.is_ascii_digit() {
            return None;
        }
        count = (count * 10 + (*digit as u32 - 48)).min(LIMIT + 1);
    }
    Some(count)
}

// The bounds with a second number after the comma, or nothing.
fn with_second(least: &[char], most: &[char]) -> Option<Bounds>
    ensures { Bounded (second_bounds (number least.now) most.now) result }
{
    let count = count_of(least)?;
    if most.is_empty() {
        return Some(Bounds {
            least: count,
            most: None,
        });
    }
    let last = count_of(most)?;
    is_at_most(least, most).then_some(Bounds {
        least: count,
        most: Some(last),
    })
}

fn comma_in(text: &[char]) -> Option<usize>
    ensures first { result ≡ position (λ c. c == 44) text.now }
    ensures within { IfSome result (λ comma. comma < length text.now) }
{
    text.iter().position(|c| *c == ',')
}

// The bounds that the text of braces has, from after `{` to before `}`: `n`, `n,` or `n,m` with
// `n` at most `m`.
pub(crate) fn bounds_of(text: &[char]) -> Option<Bounds>
    ensures { Bounded (bounds_of text.now) result }
{
    match comma_in(text) {
        Some(comma) => with_second(&text[..comma], &text[comma + 1..]),
        None => {
            let count = count_of(text)?;
            Some(Bounds {
                least: count,
                most: Some(count),
            })
        }
    }
}
