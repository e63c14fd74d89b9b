// A file's content as a key.
ghost use Rattle.std.specs.Prelude.{◌≡◌, ◌++◌, bytes_eq, length, min, take};
ghost use Rattle.std.proofs.Common.{rules};
ghost use Rattle.std.specs.Hash as fed;
ghost use Rattle.std.specs.Cmp.{partial_equiv_from_equiv};
ghost use Rattle.std.specs.Cmp.Lexicographic.{nat_list_eq_equiv};
ghost use Rattle.std.specs.Cmp.Rules.{hashing};

use std::hash::{Hash, Hasher};
use std::marker::Model;
use sugar_path::Bytes;

// How many bytes of a content its hash is told from.
const HASHED: usize = 64;

/// A file's content as a key of a map. Equal keys have equal bytes. The hash is told from the length and the first
/// bytes
/// alone, so that a look-up of a long content costs a comparison and no walk over all of it.
#[derive(Drop)]
pub struct ContentKey {
    content: Bytes,
}

impl Model for ContentKey {
    ghost use Rattle.std.specs.Prelude.{List, ℕ};

    ghost Value = { List ℕ };

    ghost view = { λ key. key.content };
}

impl ContentKey {
    /// The key of a content.
    pub fn of(content: Bytes) -> ContentKey
        ensures { result ≡ content }
    {
        ContentKey { content }
    }

    /// The content.
    pub fn content(&self) -> &Bytes
        ensures { result.now ≡ self.now }
    {
        &self.content
    }
}

impl PartialEq for ContentKey {
    ghost eq = { bytes_eq };

    ghost laws = { partial_equiv_from_equiv nat_list_eq_equiv };

    fn eq(&self, other: &Self) -> bool {
        self.content == other.content
    }
}

impl Eq for ContentKey {
    ghost laws = { nat_list_eq_equiv };
}

impl Hash for ContentKey {
    ghost hash_input = { λ bytes. fed.usize (length bytes) ++ fed.slice fed.u8 (take (min (length bytes) 64) bytes) };

    ghost respects_eq = { Prim.search (hashing, rules) };

    fn hash<H: Hasher>(&self, state: &mut H) {
        let bytes = self.content.as_slice();
        bytes.len().hash(state);
        bytes[..bytes.len().min(HASHED)].hash(state);
    }
}
