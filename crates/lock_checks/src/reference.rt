// How a reference is read.
ghost use Rattle.std.specs.Prelude.{◌≡◌, option_map};
ghost use Rattle.lock_checks.specs.Reference.{behind_mark, is_npm, is_workspace, plain_reference};

// A reference without its virtual part.
pub(crate) fn plain_reference(reference: &str) -> &str
    ensures { result.now ≡ plain_reference reference.now }
{
    if !reference.starts_with("virtual:") {
        return reference;
    }
    behind_mark(reference).unwrap_or(reference)
}

// What follows the first `#`.
fn behind_mark(text: &str) -> Option<&str>
    ensures { option_map (λ t. t.now) result ≡ behind_mark text.now }
{
    match text.split_once('#') {
        Some((_, behind)) => Some(behind),
        None => None,
    }
}

// Whether the package is one of the workspace.
pub(crate) fn is_workspace(reference: &str) -> bool
    ensures { result ≡ is_workspace reference.now }
{
    plain_reference(reference).starts_with("workspace:")
}

// Whether the package is one of npm's registry.
pub(crate) fn is_npm(reference: &str) -> bool
    ensures { result ≡ is_npm reference.now }
{
    plain_reference(reference).starts_with("npm:")
}
