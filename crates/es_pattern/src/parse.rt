// From a text to the pieces of its pattern, or the place of its first fault.
ghost use Rattle.std.specs.Prelude.{◌≡◌, ◌≤◌, ◌<◌, length, slice_index, take, ◌+◌, ◌^◌, IfOk, IfErr, OnOk, Some};
ghost use Rattle.std.specs.Option.{ForSome};
ghost use Rattle.std.specs.Str.{chars};
ghost use Rattle.es_pattern.specs.Pieces.{tree_of};
ghost use Rattle.es_pattern.specs.Faults.{IsCaused, IsClear, byte_place};
ghost use Rattle.es_pattern.specs.Parsing.{PassesBefore, Refuses};
ghost use Rattle.es_pattern.specs.Forms.{
  begins_group,
  begins_named_group,
  begins_surrogate,
  begins_unsupported_escape,
  is_unsupported_letter,
  make_surrogate,
};
ghost use Rattle.es_pattern.specs.Refusals.{is_too_deep, is_unsupported};
ghost use Rattle.es_pattern.specs.Reading.{accepted, reads, start};
ghost use Rattle.es_pattern.specs.ReaderView.{reading};

use crate::error::PatternError;
use crate::escape::{hex_value, is_surrogate};
use crate::piece::Piece;
use crate::reader::{Reader, Taken};
use std::alloc::Global;

// The greatest number of groups within one another.
const DEPTH_LIMIT: usize = 200;

// Whether the values of four hexadecimal digits make a surrogate.
fn makes_surrogate(a: Option<u32>, b: Option<u32>, c: Option<u32>, d: Option<u32>) -> bool
    requires { ForSome a (λ k. k < 16) × ForSome b (λ k. k < 16) × ForSome c (λ k. k < 16)
        × ForSome d (λ k. k < 16) }
    ensures { result ≡ make_surrogate a b c d }
{
    match (a, b, c, d) {
        (Some(a), Some(b), Some(c), Some(d)) => is_surrogate(((a * 16 + b) * 16 + c) * 16 + d),
        _ => false,
    }
}

// Whether the text begins with the digits of a surrogate.
fn begins_surrogate(rest: &[char]) -> bool
    ensures { result ≡ begins_surrogate rest.now }
{
    match rest {
        [a, b, c, d, ..] => makes_surrogate(
            hex_value(*a),
            hex_value(*b),
            hex_value(*c),
            hex_value(*d),
        ),
        _ => false,
    }
}

fn is_unsupported_letter(c: char) -> bool
    ensures { result ≡ is_unsupported_letter c }
{
    matches!(c, 'k' | 'p' | 'P' | 'c' | '1'..='9')
}

// Whether the text begins with an escape that isn't supported.
fn begins_unsupported_escape(rest: &[char]) -> bool
    ensures { result ≡ begins_unsupported_escape rest.now }
{
    match rest {
        [a, b, others @ ..] => {
            *a == '\\' && (is_unsupported_letter(*b) || *b == 'u' && begins_surrogate(others))
        }
        _ => false,
    }
}

// Whether the text begins with `(?<`.
fn begins_named_group(rest: &[char]) -> bool
    ensures { result ≡ begins_named_group rest.now }
{
    rest.starts_with(&['(', '?', '<'])
}

// Whether the text begins with `(`.
fn begins_group(rest: &[char]) -> bool
    ensures { result ≡ begins_group rest.now }
{
    rest.starts_with(&['('])
}

// Whether something that isn't supported begins here.
fn is_unsupported(reader: &Reader, rest: &[char]) -> bool
    ensures { result ≡ is_unsupported (reading reader.now).mode rest.now }
{
    reader.may_escape() && begins_unsupported_escape(rest)
        || reader.may_open() && begins_named_group(rest)
}

// Whether a group begins here within too many others.
fn is_too_deep(reader: &Reader, rest: &[char]) -> bool
    ensures { result ≡ is_too_deep (length (reading reader.now).groups) (reading reader.now).mode
        rest.now }
{
    reader.may_open() && begins_group(rest) && reader.depth() >= DEPTH_LIMIT
}

// Whether something that is refused begins here, whatever the grammar says.
fn refused(reader: &Reader, rest: &[char], place: usize) -> Result<(), PatternError>
    ensures { Refuses (length (reading reader.now).groups) (reading reader.now).mode rest.now place
        result }
{
    if is_unsupported(reader, rest) {
        return Err(PatternError::Unsupported { place });
    }
    if is_too_deep(reader, rest) {
        return Err(PatternError::CountTooLarge { place });
    }
    Ok(())
}

// The byte of the `{` of the braces that the reader is in.
fn braces_place(reader: &Reader, place: usize) -> usize
    requires { length (reading reader.now).braces < place }
    ensures { result + (length (reading reader.now).braces + 1) ≡ place }
{
    place - reader.braces_len() - 1
}

// Takes the character at that number, which is at the byte `place`.
fn take_next(
    reader: &mut Reader,
    characters: &[char],
    number: usize,
    place: usize,
) -> Result<(), PatternError>
    requires number { number < length characters.now }
    requires place { place ≡ byte_place characters.now number }
    requires reads { reads (take number characters.now) start ≡ Some (reading reader.old) }
    requires passes { PassesBefore characters.now number }
    ensures reads { OnOk result
        (reads (take (number + 1) characters.now) start ≡ Some (reading reader.new)) }
    ensures passes { OnOk result (PassesBefore characters.now (number + 1)) }
    ensures fault { IfErr result (IsCaused characters.now) }
{
    refused(reader, &characters[number..], place)?;
    match reader.take(characters[number])? {
        Taken::Yes => Ok(()),
        Taken::No => Err(PatternError::Syntax { place }),
        Taken::TooLarge => Err(PatternError::CountTooLarge {
            place: braces_place(reader, place),
        }),
    }
}

// The pieces of the pattern that the characters are.
fn pieces_from(alloc: Global, characters: &[char]) -> Result<Vec<Piece>, PatternError>
    requires { byte_place characters.now (length characters.now) < 2 ^ 64 }
    ensures ok { IfOk result (λ pieces. accepted characters.now ≡ Some (tree_of pieces.items)) }
    ensures clear { OnOk result (IsClear characters.now) }
    ensures fault { IfErr result (IsCaused characters.now) }
{
    let mut reader = Reader::new(alloc)?;
    let mut place = 0usize;
    for number in 0..characters.len() {
        take_next(&mut reader, characters, number, place)?;
        place += characters[number].len_utf8();
    }
    match reader.finish()? {
        Some(pieces) => Ok(pieces),
        None => Err(PatternError::Syntax { place }),
    }
}

// The pieces of the pattern that the text is.
pub(crate) fn pieces_of(alloc: Global, text: &str) -> Result<Vec<Piece>, PatternError>
    ensures ok { IfOk result (λ pieces. accepted (chars text.now) ≡ Some (tree_of pieces.items)) }
    ensures clear { OnOk result (IsClear (chars text.now)) }
    ensures fault { IfErr result (IsCaused (chars text.now)) }
{
    let characters: Vec<char> = text.chars().collect(alloc)?;
    pieces_from(alloc, &characters)
}
