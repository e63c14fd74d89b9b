// Entries are equal where all that their accessors answer is.
ghost use Rattle.std.specs.Prelude.{◌≡◌};
ghost use Rattle.std.specs.Cmp.{partial_equiv_from_equiv};
ghost use Rattle.yarn_lock_parser.specs.EntryEq.{
  entry_eq,
  entry_eq_equiv,
  flagged_eq,
  flagged_eq_equiv,
  metas_eq,
  pair_eq,
  pair_eq_equiv,
  pairs_eq,
  texts_eq,
};

use crate::entry::Entry;
use crate::metas::Meta;
use crate::pair::Pair;

impl<'a> PartialEq for Pair<'a> {
    ghost eq = { pair_eq };

    ghost laws = { partial_equiv_from_equiv pair_eq_equiv };

    fn eq(&self, other: &Self) -> bool {
        self.name == other.name && self.value == other.value
    }
}

impl<'a> PartialEq for Meta<'a> {
    ghost eq = { flagged_eq };

    ghost laws = { partial_equiv_from_equiv flagged_eq_equiv };

    fn eq(&self, other: &Self) -> bool {
        self.name == other.name && self.flag.known() == other.flag.known()
    }
}

impl<'a> PartialEq for Entry<'a> {
    ghost eq = { entry_eq };

    ghost laws = { partial_equiv_from_equiv entry_eq_equiv };

    fn eq(&self, other: &Self) -> bool {
        have_same_texts(self, other) && have_same_pairs(self, other) && have_same_metas(self, other)
    }
}

impl<'a> Eq for Entry<'a> {
    ghost laws = { entry_eq_equiv };
}

fn have_same_texts(one: &Entry<'_>, other: &Entry<'_>) -> bool
    ensures { result ≡ texts_eq one.now other.now }
{
    one.name() == other.name()
        && one.version() == other.version()
        && one.resolved() == other.resolved()
        && one.integrity() == other.integrity()
}

fn have_same_pairs(one: &Entry<'_>, other: &Entry<'_>) -> bool
    ensures { result ≡ pairs_eq one.now other.now }
{
    one.descriptors().as_slice() == other.descriptors().as_slice()
        && one.dependencies().as_slice() == other.dependencies().as_slice()
        && one.optional_dependencies().as_slice() == other.optional_dependencies().as_slice()
        && one.peer_dependencies().as_slice() == other.peer_dependencies().as_slice()
}

fn have_same_metas(one: &Entry<'_>, other: &Entry<'_>) -> bool
    ensures { result ≡ metas_eq one.now other.now }
{
    one.dependencies_meta().is_same(&other.dependencies_meta())
        && one
            .peer_dependencies_meta()
            .is_same(&other.peer_dependencies_meta())
}
