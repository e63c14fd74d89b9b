// A request that is answered from a trail alone.
ghost use Rattle.replay_core.specs.Replaying.{Replays, GivesAgain};
ghost use Rattle.resolve_stack.specs.Verdict.{verdict};
ghost use Rattle.resolve_stack.specs.Request.{asked_for};

use crate::import::decide;
use crate::request::Request;
use crate::{Project, Verdict};
use replay_core::{ReplayError, ReplayTree, replayed};
use std::alloc::Global;
use swc_loader::FileName;
use tree_core::{Recorder, Trail};

/// The verdict of a request by the replies of a trail: that of each tree that agrees with the trail.
pub fn replay(
    alloc: Global,
    project: &Project<'_>,
    importer: &FileName,
    specifier: &str,
    trail: &Trail,
) -> Result<Verdict, ReplayError>
    // The trail has all questions that the order puts to a tree that agrees with it, or the question told is the first
    // that it lacks.
    ensures replays { Replays result trail.now
        (verdict project.now (asked_for importer.now specifier.now)) }
    // The trail of an outcome gives its verdict again.
    ensures again { GivesAgain result trail.now
        (verdict project.now (asked_for importer.now specifier.now)) }
{
    let mut tree = ReplayTree::of(alloc, trail);
    let mut recorder = Recorder::new(alloc, &mut tree);
    let request = Request {
        importer,
        specifier,
    };
    let decided = decide(alloc, &mut recorder, project, &request);
    replayed(alloc, trail, recorder, decided)
}
