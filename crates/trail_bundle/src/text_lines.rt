// The lines of a text, one after the other.
ghost use Rattle.std.specs.Prelude.{◌≡◌, ◌==◌, ◌+◌, ◌++◌, ◌≤◌, ◌^◌, IfSome, IfNone, IsTrue, length};
ghost use Rattle.trail_bundle.specs.BundleText.{ended};
ghost use Rattle.trail_bundle.specs.Lines.{is_line};

/// What is left of a text, and the number of its next line.
#[derive(Drop)]
pub(crate) struct TextLines<'a> {
    rest: &'a str,
    number: usize,
    ghost room: { number + length rest.now ≤ 2 ^ 63 },
}

impl<'a> TextLines<'a> {
    pub(crate) fn of(text: &'a str) -> TextLines<'a>
        ensures rest { result.rest.now ≡ text.now }
        ensures first { result.number ≡ 1 }
    {
        TextLines {
            rest: text,
            number: 1,
        }
    }

    /// The next line, without its end. There is none where no line end is left.
    pub(crate) fn next(&mut self) -> Option<&'a str>
        ensures line { IfSome result (λ line. IsTrue (is_line line.now)) }
        ensures rest { IfSome result (λ line.
            self.old.rest.now ≡ ended line.now ++ self.new.rest.now) }
        ensures number { IfSome result (λ _. self.new.number ≡ self.old.number + 1) }
        ensures last { IfNone result (IsTrue (is_line self.old.rest.now)) }
    {
        let (line, rest) = parts_at_end(self.rest)?;
        self.rest = rest;
        self.number += 1;
        Some(line)
    }

    /// The number of the next line.
    pub(crate) fn number(&self) -> usize
        ensures { result ≡ self.now.number }
    {
        self.number
    }

    /// Whether nothing is left.
    pub(crate) fn is_empty(&self) -> bool
        ensures { result ≡ (length self.now.rest.now == 0) }
    {
        self.rest.is_empty()
    }
}

// What stands before the first line end and behind it.
fn parts_at_end(text: &str) -> Option<(&str, &str)>
    ensures parts { IfSome result (λ parts. text.now ≡ ended parts.0.now ++ parts.1.now) }
    ensures line { IfSome result (λ parts. IsTrue (is_line parts.0.now)) }
    ensures none { IfNone result (IsTrue (is_line text.now)) }
{
    text.split_once('\n')
}
