// The imports of a text, in one pass.
ghost use Rattle.std.specs.Prelude.{◌≡◌, true, false, ◌≤◌, ◌++◌, IfOk, IfSome, OnOk, length, map};
ghost use Rattle.es_imports.specs.Forms.{found, next};
ghost use Rattle.es_imports.specs.Signs.{sign_of};
ghost use Rattle.es_imports.specs.Imports.{Tells, body_of, import_of, hash_bang_len, imports_of};
ghost use Rattle.std.specs.Option.{option_to_list};
ghost use Rattle.es_imports.specs.Quoted.{IsQuoted};

use crate::expected::{Expected, Found, begun_by, find, next};
use crate::imports::Import;
use crate::part::Part;
use crate::piece::Kind;
use crate::reading::piece_at;
use crate::refusal::ScanError;
use crate::run::run_len;
use crate::scanner::Scanner;
use crate::sign::sign_of;
use crate::value::value_of;
use std::alloc::{AllocError, Global};
use sugar_path::List;

/// What a text of JavaScript or TypeScript imports, in the order of its places.
pub fn scan_imports(alloc: Global, text: &str) -> Result<List<Import>, ScanError>
    ensures { Tells (imports_of false text.now) result }
{
    scan(alloc, text, false)
}

/// What a text with elements of JSX imports, in the order of its places.
pub fn scan_imports_jsx(alloc: Global, text: &str) -> Result<List<Import>, ScanError>
    ensures { Tells (imports_of true text.now) result }
{
    scan(alloc, text, true)
}

fn scan(alloc: Global, text: &str, jsx: bool) -> Result<List<Import>, ScanError>
    ensures { Tells (imports_of jsx text.now) result }
{
    let bytes = text.as_bytes();
    let mut scanner = Scanner::new(alloc, jsx);
    let mut expected = Expected::Nothing;
    let mut imports = Vec::new(alloc);
    let mut at = hash_bang_len(bytes);
    while at < bytes.len() {
        let rest = &bytes[at..];
        let piece = match piece_at(scanner.goal(), rest) {
            Ok(piece) => piece,
            Err(cause) => return Err(ScanError::Refused { place: at, cause }),
        };
        let token = &rest[..piece.len];
        expected = follow(alloc, text, &mut imports, expected, piece.kind, at, token)?;
        scanner.pass(piece.kind, token)?;
        at += piece.len;
    }
    Ok(List::from(imports))
}

// What may come behind a piece that begins at that place; what it is found to import is kept.
fn follow(
    alloc: Global,
    text: &str,
    imports: &mut Vec<Import>,
    expected: Expected,
    kind: Kind,
    place: usize,
    token: &[u8],
) -> Result<Expected, AllocError>
    requires { IfSome (found expected (sign_of kind token.now) place (length token.now))
        (λ f. IsQuoted text.now f.place f.len) }
    ensures behind { IfOk result (λ behind.
        behind ≡ next expected (sign_of kind token.now) place (length token.now)) }
    ensures kept { OnOk result (imports.new.items ≡ imports.old.items ++ map (import_of text.now)
        (option_to_list (found expected (sign_of kind token.now) place (length token.now)))) }
{
    match expected {
        Expected::Nothing => Ok(begun_by(kind, token)),
        _ => follow_form(alloc, text, imports, expected, kind, place, token),
    }
}

fn follow_form(
    alloc: Global,
    text: &str,
    imports: &mut Vec<Import>,
    expected: Expected,
    kind: Kind,
    place: usize,
    token: &[u8],
) -> Result<Expected, AllocError>
    requires { IfSome (found expected (sign_of kind token.now) place (length token.now))
        (λ f. IsQuoted text.now f.place f.len) }
    ensures behind { IfOk result (λ behind.
        behind ≡ next expected (sign_of kind token.now) place (length token.now)) }
    ensures kept { OnOk result (imports.new.items ≡ imports.old.items ++ map (import_of text.now)
        (option_to_list (found expected (sign_of kind token.now) place (length token.now)))) }
{
    let sign = sign_of(kind, token);
    let found = find(expected, sign, place, token.len());
    keep_found(alloc, text, imports, found)?;
    Ok(next(expected, sign, place, token.len()))
}

// How many bytes a line at the text's front takes that names an interpreter.
fn hash_bang_len(text: &[u8]) -> usize
    ensures value { result ≡ hash_bang_len text.now }
    ensures within { result ≤ length text.now }
{
    if text.starts_with(b"#!") {
        run_len(Part::Line, text)
    } else {
        0
    }
}

// Keeps what a token is found to import.
fn keep_found(
    alloc: Global,
    text: &str,
    imports: &mut Vec<Import>,
    found: Option<Found>,
) -> Result<(), AllocError>
    requires { IfSome found (λ f. IsQuoted text.now f.place f.len) }
    ensures { OnOk result (imports.new.items
        ≡ imports.old.items ++ map (import_of text.now) (option_to_list found)) }
{
    if let Some(found) = found {
        imports.push(import_of(alloc, text, found)?)?;
    }
    Ok(())
}

// The import by a string or template of the text.
fn import_of(alloc: Global, text: &str, found: Found) -> Result<Import, AllocError>
    requires { IsQuoted text.now found.place found.len }
    ensures { IfOk result (λ import. import ≡ import_of text.now found) }
{
    let body = body_of(text, found.place, found.len);
    Ok(Import {
        kind: found.form.kind,
        specifier: value_of(alloc, body)?,
        place: found.place,
        is_type: found.form.is_type,
    })
}

// What stands between the quotes of a string, or the backquotes of a template.
fn body_of(text: &str, place: usize, len: usize) -> &str
    requires { IsQuoted text.now place len }
    ensures { result.now ≡ body_of text.now place len }
{
    &text[place + 1..place + len - 1]
}
