// Whether the trails of a document's requests decide: whole, without each of their questions, and with the replies of
// other trees.
ghost use Rattle.std.specs.Prelude.{IfOk, IsTrue};
ghost use Rattle.tree_core.specs.Question.{fits};

use document_core::{
    Document, DocumentError, GivenFile, GivenRequest, project_in, read_document, tree_of,
};
use resolve_stack::{Outcome, Project, ReplayError, Verdict, replay, resolve_import};
use std::alloc::{AllocError, Global};
use sugar_path::is_clean;
use tree_core::{MemoryTree, Question, ReadError, Reply, Trail, Tree};

/// What a document's trails came to.
#[derive(Drop)]
pub struct Replays {
    /// The trails that were replayed whole, one of each request.
    pub requests: usize,
    /// The questions that were left out of a trail, one at a time.
    pub questions: usize,
    /// The files that were taken out of the tree, one at a time, with a trail given the replies of that tree.
    pub files: usize,
    /// The replays that told something else than the request itself.
    pub differ: usize,
}

impl Replays {
    fn none() -> Replays {
        Replays {
            requests: 0,
            questions: 0,
            files: 0,
            differ: 0,
        }
    }

    fn note(&mut self, decides: bool) {
        if !decides {
            self.differ = self.differ.saturating_add(1);
        }
    }
}

/// Replays the trails of a document's requests. A document that is refused has none, and neither has one of a session,
/// whose requests are steps, nor one of an audit, which has no requests.
pub fn replays_in(alloc: Global, document: &[u8]) -> Result<Replays, AllocError> {
    match replays_of(alloc, document) {
        Ok(replays) => Ok(replays),
        Err(DocumentError::Refused(_)) => Ok(Replays::none()),
        Err(DocumentError::NoMemory) => Err(AllocError),
    }
}

fn replays_of(alloc: Global, document: &[u8]) -> Result<Replays, DocumentError> {
    let Document {
        settings,
        lock,
        files,
        requests,
    } = read_document(alloc, document)?;
    let project = project_in(alloc, settings, &lock)?;
    let mut replays = Replays::none();
    for request in requests.as_slice() {
        replay_request(alloc, &project, files.as_slice(), request, &mut replays)?;
    }
    Ok(replays)
}

// Replays the trail of one request in each way.
fn replay_request(
    alloc: Global,
    project: &Project<'_>,
    files: &[GivenFile],
    request: &GivenRequest,
    replays: &mut Replays,
) -> Result<(), DocumentError> {
    let mut tree = tree_of(alloc, files)?;
    let outcome = outcome_on(alloc, &mut tree, project, request)?;
    replays.requests = replays.requests.saturating_add(1);
    replays.note(decides(alloc, project, request, &outcome.trail, &outcome)?);
    replay_without_each(alloc, project, request, &outcome, replays)?;
    replay_on_others(alloc, project, files, request, &outcome.trail, replays)
}

fn outcome_on(
    alloc: Global,
    tree: &mut MemoryTree,
    project: &Project<'_>,
    request: &GivenRequest,
) -> Result<Outcome, AllocError> {
    let specifier = request.specifier.as_str();
    match resolve_import(alloc, tree, project, &request.importer, specifier) {
        Ok(outcome) => Ok(outcome),
        Err(_) => Err(AllocError),
    }
}

// Whether a trail gives the outcome's verdict, or tells the first of the outcome's questions that it lacks.
fn decides(
    alloc: Global,
    project: &Project<'_>,
    request: &GivenRequest,
    trail: &Trail,
    outcome: &Outcome,
) -> Result<bool, AllocError> {
    let specifier = request.specifier.as_str();
    match replay(alloc, project, &request.importer, specifier, trail) {
        Ok(verdict) => Ok(is_whole(trail, outcome) && verdict == outcome.verdict),
        Err(ReplayError::NotRecorded { question }) => Ok(is_first_lacking(
            trail, outcome, &question,
        )),
        Err(ReplayError::NoMemory) => Err(AllocError),
    }
}

// Whether a trail has each of the outcome's questions.
fn is_whole(trail: &Trail, outcome: &Outcome) -> bool {
    first_lacking(trail, outcome).is_none()
}

fn is_first_lacking(trail: &Trail, outcome: &Outcome, question: &Question) -> bool {
    match first_lacking(trail, outcome) {
        Some(lacking) => lacking == question,
        None => false,
    }
}

fn first_lacking<'o>(trail: &Trail, outcome: &'o Outcome) -> Option<&'o Question> {
    for (question, _) in outcome.trail.iter() {
        if trail.place_of(question).is_none() {
            return Some(question);
        }
    }
    None
}

// Leaves each question out in turn.
fn replay_without_each(
    alloc: Global,
    project: &Project<'_>,
    request: &GivenRequest,
    outcome: &Outcome,
    replays: &mut Replays,
) -> Result<(), AllocError> {
    for place in 0..outcome.trail.len() {
        let left = without(alloc, &outcome.trail, place)?;
        replays.questions = replays.questions.saturating_add(1);
        replays.note(decides(alloc, project, request, &left, outcome)?);
    }
    Ok(())
}

// A trail without the question at a place.
fn without(alloc: Global, trail: &Trail, place: usize) -> Result<Trail, AllocError> {
    let mut left = Trail::new(alloc);
    for i in 0..trail.len() {
        if i != place {
            copy_step(alloc, trail, i, &mut left)?;
        }
    }
    Ok(left)
}

fn copy_step(
    alloc: Global,
    trail: &Trail,
    place: usize,
    copy: &mut Trail,
) -> Result<(), AllocError> {
    let Some((question, _)) = trail.get(place) else {
        return Ok(());
    };
    let Some(reply) = trail.reply_to(question) else {
        return Ok(());
    };
    put(copy, question.try_clone(alloc)?, reply.try_clone(alloc)?)
}

fn put(trail: &mut Trail, question: Question, reply: Reply) -> Result<(), AllocError>
    requires { IsTrue (fits question reply) }
{
    match trail.push(question, reply) {
        Ok(()) => Ok(()),
        Err(_) => Err(AllocError),
    }
}

// Takes each file out of the tree in turn. The trail's questions with that tree's replies decide the request as that
// tree does.
fn replay_on_others(
    alloc: Global,
    project: &Project<'_>,
    files: &[GivenFile],
    request: &GivenRequest,
    trail: &Trail,
    replays: &mut Replays,
) -> Result<(), DocumentError> {
    for file in files {
        let mut tree = tree_of(alloc, files)?;
        tree.remove(file.path.as_str());
        replays.files = replays.files.saturating_add(1);
        replays.note(decides_on(alloc, project, &mut tree, request, trail)?);
    }
    Ok(())
}

fn decides_on(
    alloc: Global,
    project: &Project<'_>,
    tree: &mut MemoryTree,
    request: &GivenRequest,
    trail: &Trail,
) -> Result<bool, AllocError> {
    let outcome = outcome_on(alloc, tree, project, request)?;
    let changed = with_replies_of(alloc, tree, trail)?;
    decides(alloc, project, request, &changed, &outcome)
}

// The questions of a trail with the replies of a tree.
fn with_replies_of(
    alloc: Global,
    tree: &mut MemoryTree,
    trail: &Trail,
) -> Result<Trail, AllocError> {
    let mut changed = Trail::new(alloc);
    for (question, _) in trail.iter() {
        match reply_on(alloc, tree, question) {
            Ok(reply) => put(&mut changed, question.try_clone(alloc)?, reply)?,
            Err(_) => return Err(AllocError),
        }
    }
    Ok(changed)
}

// The reply of a tree in memory, which fails at no question on a clean path.
fn reply_on(alloc: Global, tree: &mut MemoryTree, question: &Question) -> Result<Reply, ReadError>
    ensures { IfOk result (λ reply. IsTrue (fits question.now reply)) }
{
    if !is_clean(question.path()) {
        return Err(ReadError::Fault);
    }
    match question {
        Question::File(path) => Ok(Reply::Flag(tree.is_file(path.as_str())?)),
        Question::Dir(path) => Ok(Reply::Flag(tree.is_dir(path.as_str())?)),
        Question::Exists(path) => Ok(Reply::Flag(tree.exists(path.as_str())?)),
        Question::Read(path) => Ok(Reply::Bytes(tree.read(alloc, path.as_str())?)),
        Question::Canon(path) => Ok(Reply::Name(tree.canonical(alloc, path.as_str())?)),
    }
}
