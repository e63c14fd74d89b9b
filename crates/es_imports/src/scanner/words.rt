// What a name or a mark leaves behind it.
ghost use Rattle.std.specs.Prelude.{◌≡◌};
ghost use Rattle.std.specs.Str.{bytes_eq};
ghost use Rattle.es_imports.specs.Goals.{
  after_mark,
  after_name,
  after_step,
  after_word,
  begins_statement,
  brace_behind,
  group_behind,
  is_head,
  is_operand,
  wants_operand,
};

use crate::scanner::{Before, Opening};

// Whether the bytes are the word.
pub(crate) fn is(bytes: &[u8], word: &str) -> bool
    ensures { result ≡ bytes_eq bytes.now word.now }
{
    bytes == word.as_bytes()
}

// What a name leaves behind it.
pub(crate) fn after_name(before: Before, name: &[u8]) -> Before
    ensures { result ≡ after_name before name.now }
{
    match before {
        Before::Dot => Before::Operand,
        Before::Head if is(name, "await") => Before::Head,
        _ => after_word(name),
    }
}

fn after_word(name: &[u8]) -> Before
    ensures { result ≡ after_word name.now }
{
    if is_head(name) {
        Before::Head
    } else if begins_statement(name) {
        Before::Statement
    } else if wants_operand(name) {
        Before::Operator
    } else {
        Before::Operand
    }
}

fn is_head(name: &[u8]) -> bool
    ensures { result ≡ is_head name.now }
{
    is(name, "if") || is(name, "for") || is(name, "while") || is(name, "with")
}

fn begins_statement(name: &[u8]) -> bool
    ensures { result ≡ begins_statement name.now }
{
    is(name, "do") || is(name, "else") || is(name, "try") || is(name, "finally")
}

fn wants_operand(name: &[u8]) -> bool
    ensures { result ≡ wants_operand name.now }
{
    is(name, "return")
        || is(name, "typeof")
        || is(name, "new")
        || is(name, "in")
        || is(name, "of")
        || is(name, "case")
        || is(name, "await")
        || is(name, "yield")
        || is(name, "throw")
        || is(name, "void")
        || is(name, "delete")
        || is(name, "default")
        || is(name, "extends")
        || is(name, "instanceof")
}

// The parenthesis that is opened here.
pub(crate) fn group_behind(before: Before) -> Opening
    ensures { result ≡ group_behind before }
{
    match before {
        Before::Head => Opening::Head,
        _ => Opening::Group,
    }
}

// The brace that is opened here.
pub(crate) fn brace_behind(before: Before) -> Opening
    ensures { result ≡ brace_behind before }
{
    match before {
        Before::Operator => Opening::Object,
        _ => Opening::Block,
    }
}

// What a punctuator that is no parenthesis and no brace leaves behind it.
pub(crate) fn after_mark(before: Before, mark: &[u8]) -> Before
    ensures { result ≡ after_mark before mark.now }
{
    if is(mark, ".") || is(mark, "?.") {
        Before::Dot
    } else if is(mark, "]") {
        Before::Operand
    } else if is(mark, ";") || is(mark, "=>") {
        Before::Statement
    } else if is(mark, "++") || is(mark, "--") {
        after_step(before)
    } else {
        Before::Operator
    }
}

fn after_step(before: Before) -> Before
    ensures { result ≡ after_step before }
{
    match before {
        Before::Operand => Before::Operand,
        _ => Before::Operator,
    }
}
