// What stands at the ends of a text.
ghost use Rattle.std.specs.Prelude.{◌≡◌, ◌<◌, ◌≤◌, ◌∷◌, [], IfSome, MatchOption, length, option_map};
ghost use Rattle.sugar_path.specs.Front.{after};
ghost use Rattle.npm_req.specs.Front.{after_all, before_all, is_space, is_blank, trimmed};

// What follows an ASCII character that the text begins with.
pub(crate) fn after_char(text: &str, c: char) -> Option<&str>
    requires { c < 128 }
    ensures value { option_map (λ t. t.now) result ≡ after (c ∷ []) text.now }
    ensures shorter { IfSome result (λ rest. length rest.now < length text.now) }
{
    text.strip_prefix(c)
}

#[tactic(auto, unfolding(sugar_path::specs::Front::after))]
pub(crate) fn after_spaces(text: &str) -> &str
    ensures value { result.now ≡ after_all is_space text.now }
    ensures shorter { length result.now ≤ length text.now }
{
    let mut rest = text;
    while let Some(behind) = after_char(rest, ' ') {
        rest = behind;
    }
    rest
}

pub(crate) fn after_blanks(text: &str) -> &str
    ensures value { result.now ≡ after_all is_blank text.now }
    ensures shorter { length result.now ≤ length text.now }
{
    let mut rest = text;
    while let Some(behind) = after_blank(rest) {
        rest = behind;
    }
    rest
}

// What follows a space or a tab that the text begins with.
#[tactic(auto, unfolding(sugar_path::specs::Front::after))]
fn after_blank(text: &str) -> Option<&str>
    ensures { MatchOption result (after_all is_blank text.now ≡ text.now) (λ rest.
        (after_all is_blank text.now ≡ after_all is_blank rest.now)
        × (length rest.now < length text.now)) }
{
    match after_char(text, ' ') {
        Some(rest) => Some(rest),
        None => after_char(text, '\t'),
    }
}

pub(crate) fn before_blanks(text: &str) -> &str
    ensures { result.now ≡ before_all is_blank text.now }
{
    let mut rest = text;
    while let Some(front) = before_blank(rest) {
        rest = front;
    }
    rest
}

// What stands before a space or a tab that the text ends with.
fn before_blank(text: &str) -> Option<&str>
    ensures { MatchOption result (before_all is_blank text.now ≡ text.now) (λ front.
        (before_all is_blank text.now ≡ before_all is_blank front.now)
        × (length front.now < length text.now)) }
{
    match text.strip_suffix(' ') {
        Some(front) => Some(front),
        None => text.strip_suffix('\t'),
    }
}

// The text without the spaces and tabs around it.
pub(crate) fn trimmed(text: &str) -> &str
    ensures { result.now ≡ trimmed text.now }
{
    before_blanks(after_blanks(text))
}
