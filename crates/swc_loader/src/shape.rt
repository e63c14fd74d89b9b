// Whether a text ends in a name, and whether anything stands behind that name.
ghost use Rattle.std.specs.Prelude.{◌≡◌};
ghost use Rattle.swc_loader.specs.Candidates.{is_step, is_name, is_named, is_closed};

// How a text ends.
#[derive(Clone, Copy, Debug, PartialEq, Eq)]
pub(crate) struct Shape {
    /// Its last component is a name, trailing `/` and `.` dropped.
    pub named: bool,
    /// Its last component is a name, and nothing stands behind it.
    pub closed: bool,
}

// The shape of a text.
pub(crate) fn shape_of(text: &str) -> Shape
    ensures named { result.named ≡ is_named text.now }
    ensures closed { result.closed ≡ is_closed text.now }
{
    let mut named = false;
    let mut closed = false;
    for part in text.split('/') {
        closed = is_name(part);
        if is_step(part) {
            named = closed;
        }
    }
    Shape { named, closed }
}

/// Whether a text may name a file itself: what follows its last `/` is neither empty nor `.` or `..`.
pub fn is_closed(text: &str) -> bool
    ensures { result ≡ is_closed text.now }
{
    shape_of(text).closed
}

// A part that is neither empty nor `.`.
fn is_step(part: &str) -> bool
    ensures { result ≡ is_step part.now }
{
    part != "" && part != "."
}

// A step that is no `..`.
fn is_name(part: &str) -> bool
    ensures { result ≡ is_name part.now }
{
    is_step(part) && part != ".."
}
