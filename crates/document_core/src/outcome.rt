// What a document's request comes to on the tree of its files.
ghost use Rattle.std.specs.Prelude.{◌≡◌, IfOk};
ghost use Rattle.document_core.specs.Outcomes.{outcome_on};

use crate::given::GivenRequest;
use resolve_stack::{KnownTree, Outcome, Project};
use std::alloc::{AllocError, Global};

/// The outcome of one request. A tree in memory refuses no question, and what one request reads of it the next ones
/// keep.
pub fn outcome_of(
    alloc: Global,
    tree: &mut KnownTree,
    project: &Project<'_>,
    request: &GivenRequest,
) -> Result<Outcome, AllocError>
    ensures outcome { IfOk result (λ o. o ≡ outcome_on tree.old.files project.now request.now) }
    ensures files { tree.new.files ≡ tree.old.files }
{
    match tree.resolve_import(
        alloc,
        project,
        &request.importer,
        request.specifier.as_str(),
    ) {
        Ok(outcome) => Ok(outcome),
        Err(_) => Err(AllocError),
    }
}
