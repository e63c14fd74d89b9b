// Questions in the order in which a bundle tells them.
ghost use Rattle.std.specs.Prelude.{◌≡◌, Some, refl};
ghost use Rattle.std.specs.Cmp.{eq_by_cmp_equiv, on_equiv, on_total, partial_equiv_from_equiv};
ghost use Rattle.std.specs.Cmp.{partial_order_from_agreeing_total};
ghost use Rattle.std.specs.Ordering.{eq_by_cmp};
ghost use Rattle.trail_bundle.specs.QuestionOrder.{question_cmp, question_cmp_total, rank};

use std::cmp::Ordering;
use std::collections::BTreeMap;
use tree_core::{Question, Reply};

/// A question, in order by the bytes of its path, and for one path by what it asks.
#[derive(Drop)]
pub(crate) struct Ordered {
    pub(crate) question: Question,
}

/// Replies by their questions.
pub(crate) type Replies = BTreeMap<Ordered, Reply>;

impl PartialEq for Ordered {
    ghost eq = { λ a b. eq_by_cmp question_cmp a.question b.question };

    ghost laws = { partial_equiv_from_equiv (on_equiv (λ o. o.question) (eq_by_cmp_equiv question_cmp_total)) };

    fn eq(&self, other: &Ordered) -> bool {
        self.cmp(other).is_eq()
    }
}

impl Eq for Ordered {
    ghost laws = { on_equiv (λ o. o.question) (eq_by_cmp_equiv question_cmp_total) };
}

impl PartialOrd for Ordered {
    ghost partial_cmp = { λ a b. Some (question_cmp a.question b.question) };

    ghost laws = { partial_order_from_agreeing_total (λ a b. question_cmp a.question b.question)
        (on_total (λ o. o.question) question_cmp_total) (λ a b. refl) (λ a b. refl) };

    fn partial_cmp(&self, other: &Ordered) -> Option<Ordering> {
        Some(self.cmp(other))
    }
}

impl Ord for Ordered {
    ghost cmp = { λ a b. question_cmp a.question b.question };

    ghost total = { on_total (λ o. o.question) question_cmp_total };

    ghost matches_partial_cmp = { λ a b. refl };

    ghost matches_eq = { λ a b. refl };

    fn cmp(&self, other: &Ordered) -> Ordering {
        let paths = self.question.path().cmp(other.question.path());
        paths.then(rank(&self.question).cmp(&rank(&other.question)))
    }
}

// The place of a question among those on its path.
fn rank(question: &Question) -> u8
    ensures { result ≡ rank question.now }
{
    match question {
        Question::File(_) => 0,
        Question::Dir(_) => 1,
        Question::Exists(_) => 2,
        Question::Read(_) => 3,
        Question::Canon(_) => 4,
    }
}
