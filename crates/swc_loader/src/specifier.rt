// What a specifier's text tells before any file is asked for.
ghost use Rattle.std.specs.Prelude.{◌≡◌, codes};
ghost use Rattle.swc_loader.specs.Specifier.{is_bare, is_relative, begins_in};

/// Whether a specifier may name a package: it is neither absolute, nor is its first component `.` or `..`.
pub fn is_bare(specifier: &str) -> bool
    ensures { result ≡ is_bare specifier.now }
{
    !specifier.starts_with('/') && !is_relative(specifier)
}

// Whether a text's first component is `.` or `..`.
pub(crate) fn is_relative(text: &str) -> bool
    ensures { result ≡ is_relative text.now }
{
    let from_above = text == ".." || text.starts_with("../");
    begins_here(text) || from_above
}

// Whether a text's first component is `.`.
pub(crate) fn begins_here(text: &str) -> bool
    ensures { result ≡ begins_in text.now (codes ".") }
{
    text == "." || text.starts_with("./")
}
