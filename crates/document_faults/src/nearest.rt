// Names that are near to one another.
use std::alloc::{AllocError, Global};
use strsim::levenshtein;

// A longer name is no slip of a field's.
const LONGEST: usize = 64;

// How many edits lead from a word to a name, where it may be a slip of it: two at most, and of short names fewer.
pub(crate) fn slips(alloc: Global, word: &str, name: &str) -> Result<Option<usize>, AllocError> {
    if word.len() > LONGEST || name.len() > LONGEST {
        return Ok(None);
    }
    let edits = levenshtein(alloc, word, name)?;
    if edits <= 2 && edits <= name.len() / 2 {
        Ok(Some(edits))
    } else {
        Ok(None)
    }
}

// The name of which the word is a slip; of equally near ones the first.
pub(crate) fn nearest<'n>(
    alloc: Global,
    word: &str,
    names: &[&'n str],
) -> Result<Option<&'n str>, AllocError> {
    let mut best = None;
    let mut fewest = usize::MAX;
    for name in names {
        if let Some(edits) = slips(alloc, word, name)? {
            if edits < fewest {
                fewest = edits;
                best = Some(*name);
            }
        }
    }
    Ok(best)
}
