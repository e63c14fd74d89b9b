// What a file imports, told from its tokens.
ghost use Rattle.std.specs.Prelude.{◌≡◌, true, IfOk};
ghost use Rattle.es_imports.specs.Imports.{imports_of};
ghost use Rattle.import_graph.specs.EsScan.{es_imports_of, specifiers_in, specifiers_of, specifiers_or_none};

use crate::scan::Scan;
use es_imports::{Import, ScanError, scan_imports, scan_imports_jsx};
use std::alloc::{AllocError, Global};
use sugar_path::{List, Text};

/// Tells the imports of a file of JavaScript or TypeScript by its tokens, as `scan_es` does.
#[derive(Clone, Copy, Debug, Drop)]
pub struct EsScan;

impl Scan for EsScan {
    ghost imports = { es_imports_of };

    fn scan(&self, alloc: Global, bytes: &[u8]) -> Result<List<Text>, AllocError> {
        scan_es(alloc, bytes)
    }
}

/// What a file with these bytes imports, in the order of the places. Elements of JSX are read where the file is no text
/// of the language without them; a file that is none with them either imports nothing.
#[tactic(auto, unfolding(crate::specs::EsScan::es_imports_of))]
pub fn scan_es(alloc: Global, bytes: &[u8]) -> Result<List<Text>, AllocError>
    ensures { IfOk result (λ texts. texts ≡ es_imports_of bytes.now) }
{
    let text = String::from_utf8_lossy(alloc, bytes)?;
    specifiers_in(alloc, text.as_str())
}

// The specifiers of a text.
fn specifiers_in(alloc: Global, text: &str) -> Result<List<Text>, AllocError>
    ensures { IfOk result (λ texts. texts ≡ specifiers_in text.now) }
{
    match scan_imports(alloc, text) {
        Ok(imports) => specifiers_of(alloc, imports),
        Err(ScanError::Refused { .. }) => specifiers_with_elements(alloc, text),
        Err(ScanError::NoMemory) => Err(AllocError),
    }
}

// The specifiers of a text with elements of JSX.
fn specifiers_with_elements(alloc: Global, text: &str) -> Result<List<Text>, AllocError>
    ensures { IfOk result (λ texts. texts ≡ specifiers_or_none (imports_of true text.now)) }
{
    match scan_imports_jsx(alloc, text) {
        Ok(imports) => specifiers_of(alloc, imports),
        Err(ScanError::Refused { .. }) => Ok(List::new(alloc)),
        Err(ScanError::NoMemory) => Err(AllocError),
    }
}

fn specifiers_of(alloc: Global, imports: List<Import>) -> Result<List<Text>, AllocError>
    ensures { IfOk result (λ texts. texts ≡ specifiers_of imports) }
{
    let mut texts = Vec::new(alloc);
    for import in Vec::from(imports) {
        let Import {
            kind: _,
            specifier,
            place: _,
            is_type: _,
        } = import;
        texts.push(specifier)?;
    }
    Ok(List::from(texts))
}
