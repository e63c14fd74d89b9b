// What a file imports, each text once.
ghost use Rattle.std.specs.Prelude.{◌≡◌, [], IfOk, bytes_eq};
ghost use Rattle.indexmap.specs.IndexSet.{insert_all};
ghost use Rattle.import_graph.specs.Levels.{once};

use indexmap::IndexSet;
use std::alloc::{AllocError, Global};
use std::marker::Model;
use sugar_path::{List, Text};

// Texts without repeats, seen as their list: each stands where it came first.
#[derive(Drop)]
pub(crate) struct Imports {
    texts: IndexSet<Text>,
}

impl Model for Imports {
    ghost use Rattle.std.specs.Prelude as prelude;

    ghost Value = { prelude.List (prelude.List prelude.ℕ) };

    ghost view = { λ i. i.texts.keys };
}

impl Imports {
    // The texts of a list.
    pub(crate) fn of(alloc: Global, texts: List<Text>) -> Result<Imports, AllocError>
        ensures { IfOk result (λ imports. imports ≡ once texts) }
    {
        let texts = distinct(alloc, Vec::from(texts))?;
        Ok(Imports { texts })
    }

    pub(crate) fn as_slice(&self) -> &[Text]
        ensures { result.now ≡ self.now }
    {
        self.texts.as_slice()
    }
}

// The set of texts.
fn distinct(alloc: Global, texts: Vec<Text>) -> Result<IndexSet<Text>, AllocError>
    ensures { IfOk result (λ set. set.keys ≡ insert_all bytes_eq [] texts.items) }
{
    let mut set = IndexSet::new(alloc);
    for text in texts {
        set.insert(text)?;
    }
    Ok(set)
}
