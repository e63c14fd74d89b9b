// What follows a word at a text's front.
ghost use Rattle.std.specs.Prelude.{◌≡◌, option_map};
ghost use Rattle.sugar_path.specs.Front.{after};

/// What follows a word at the front of a text, and `None` where the text doesn't begin with it.
pub fn after<'a>(word: &str, text: &'a str) -> Option<&'a str>
    ensures { option_map (λ t. t.now) result ≡ after word.now text.now }
{
    text.strip_prefix(word)
}
