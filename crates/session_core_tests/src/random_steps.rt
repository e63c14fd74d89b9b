// Random lists of steps on each kind of project, beside what each request comes to when it is resolved again on a
// tree with the same edits, and beside a plain list of what is kept.
ghost use Rattle.std.specs.Prelude.{◌<◌};

use crate::kept::{count_touched, has, line_of, renewed, specifiers_of, untouched};
use crate::project::{Kind, importer, keys_are, project_of, root, text_of};
use resolve_stack::{FileName, Outcome, Project, resolve_import};
use session_core::{Keys, Session};
use std::alloc::{AllocError, Global};
use std::test::Fail;
use tree_core::MemoryTree;

// How many outcomes are kept.
const CAPACITY: usize = 3;

// What is edited: files that requests look for, folders above them, and a file that no request asks for.
fn paths() -> &'static str {
    "/w/a.js
/w/.pnp.cjs
/w/package.json
/w/lib/foo/index.js
/w/lib/foo/index.ts
/w/lib/foo
/w/node_modules/foo/index.js
/w/node_modules/foo/package.json
/w/part/index.js
/w/beside.js"
}

// What is asked for, the last two by `/` alone.
fn specifiers() -> &'static str {
    "foo ./part foo/index fs bar @app/foo /w/lib/foo ./x ./w/part"
}

// What stays the same while steps are taken.
#[derive(Drop)]
struct Given<'g> {
    alloc: Global,
    kind: Kind,
    project: &'g Project<'static>,
    importer: &'g FileName,
    root: &'g FileName,
}

impl Given<'_> {
    // Who asks for a specifier.
    fn importer_of(&self, specifier: &str) -> &FileName {
        match specifier {
            "./x" | "./w/part" => self.root,
            _ => self.importer,
        }
    }

    // What a request comes to on a tree.
    fn resolved(&self, tree: &mut MemoryTree, specifier: &str) -> Result<Outcome, AllocError> {
        let importer = self.importer_of(specifier);
        match resolve_import(self.alloc, tree, self.project, importer, specifier) {
            Ok(outcome) => Ok(outcome),
            Err(_) => Err(AllocError),
        }
    }
}

// A plain tree with a session's files, and a plain list of what the session keeps.
#[derive(Drop)]
struct Plain {
    alloc: Global,
    tree: MemoryTree,
    kept: String,
}

impl Plain {
    fn new(alloc: Global) -> Plain {
        Plain {
            alloc,
            tree: MemoryTree::new(alloc),
            kept: String::new(alloc),
        }
    }

    // Puts a file: how many outcomes are touched, or nothing where the tree refuses the file.
    fn put(&mut self, path: &str, bytes: &[u8]) -> Result<Option<usize>, AllocError> {
        if self.tree.put(path, bytes, path).is_err() {
            return Ok(None);
        }
        self.drop_touched(path)
    }

    // Takes a file out: how many outcomes are touched, or nothing where there is no such file.
    fn remove(&mut self, path: &str) -> Result<Option<usize>, AllocError> {
        if !self.tree.remove(path) {
            return Ok(None);
        }
        self.drop_touched(path)
    }

    fn drop_touched(&mut self, path: &str) -> Result<Option<usize>, AllocError> {
        let count = count_touched(self.kept.as_str(), path);
        let left = untouched(self.alloc, self.kept.as_str(), path)?;
        self.kept = left;
        Ok(Some(count))
    }

    // Notes that an outcome is used, and tells whether it was kept.
    fn note(&mut self, specifier: &str, outcome: &Outcome) -> Result<bool, AllocError> {
        let known = has(self.kept.as_str(), specifier);
        let line = line_of(self.alloc, specifier, outcome)?;
        let kept = renewed(self.alloc, self.kept.as_str(), line.as_str(), CAPACITY)?;
        self.kept = kept;
        Ok(known)
    }

    // Whether a session keeps what the list has.
    fn is_kept_by(&self, keys: Keys<'_>) -> Result<bool, AllocError> {
        let specifiers = specifiers_of(self.alloc, self.kept.as_str())?;
        Ok(keys_are(keys, specifiers.as_str()))
    }
}

// Puts or removes a file in a session and beside it: whether as many outcomes go as are touched, or both refuse.
// The plain kind has no manifest.
fn edit(
    given: &Given<'_>,
    session: &mut Session<'_>,
    plain: &mut Plain,
    puts: bool,
    path: &str,
) -> Result<bool, AllocError> {
    let path = match given.kind {
        Kind::Plain if path.ends_with(".cjs") => "/w/part.js",
        _ => path,
    };
    if puts {
        let bytes = text_of(given.kind, path).as_bytes();
        let dropped = session.put(path, bytes, path).ok();
        Ok(dropped == plain.put(path, bytes)?)
    } else {
        let dropped = session.remove(path);
        Ok(dropped == plain.remove(path)?)
    }
}

// Whether a session gives what a request comes to on the plain tree, and puts no question where that is kept.
fn ask(
    given: &Given<'_>,
    session: &mut Session<'_>,
    plain: &mut Plain,
    specifier: &str,
) -> Result<bool, AllocError> {
    let outcome = given.resolved(&mut plain.tree, specifier)?;
    is_asked_alike(given, session, plain, specifier, &outcome)
}

fn is_asked_alike(
    given: &Given<'_>,
    session: &mut Session<'_>,
    plain: &mut Plain,
    specifier: &str,
    outcome: &Outcome,
) -> Result<bool, AllocError> {
    let known = plain.note(specifier, outcome)?;
    let before = session.questions();
    let same = gives(session, given.importer_of(specifier), specifier, outcome)?;
    Ok(same && known == (session.questions() == before))
}

// Whether a session gives this outcome: its verdict, and its trail with each reply.
fn gives(
    session: &mut Session<'_>,
    importer: &FileName,
    specifier: &str,
    outcome: &Outcome,
) -> Result<bool, AllocError> {
    let borrowed = session.ask(importer, specifier)?;
    Ok(borrowed.verdict == outcome.verdict && borrowed.trail.iter().eq(outcome.trail.iter()))
}

// The next number of a plain generator, and one below `count` of its high bits.
fn pick(state: &mut u64, count: u64) -> usize
    requires { 0 < count }
    ensures { result < count }
{
    *state = state
        .wrapping_mul(6364136223846793005)
        .wrapping_add(1442695040888963407);
    ((*state >> 33) % count) as usize
}

fn word_at(words: &'static str, place: usize) -> &'static str {
    let mut left = place;
    for word in words.split_whitespace() {
        if left == 0 {
            return word;
        }
        left = left.wrapping_sub(1);
    }
    ""
}

// Whether a step leaves the session, the tree and the list alike: asks, puts and removals, twice as many asks as edits.
fn step(
    given: &Given<'_>,
    session: &mut Session<'_>,
    plain: &mut Plain,
    state: &mut u64,
) -> Result<bool, AllocError> {
    let kind = pick(state, 6);
    let alike = if kind < 4 {
        let specifier = word_at(specifiers(), pick(state, 9));
        ask(given, session, plain, specifier)?
    } else {
        let path = word_at(paths(), pick(state, 10));
        edit(given, session, plain, kind == 4, path)?
    };
    Ok(alike && plain.is_kept_by(session.keys())?)
}

// How many of so many steps leave a session and what stands beside it alike.
fn steps_alike(
    given: &Given<'_>,
    session: &mut Session<'_>,
    plain: &mut Plain,
    steps: u64,
) -> Result<u64, AllocError> {
    for path in paths().split_whitespace() {
        edit(given, session, plain, true, path)?;
    }
    let mut state = 1;
    let mut alike: u64 = 0;
    for _ in 0..steps {
        if !step(given, session, plain, &mut state)? {
            return Ok(alike);
        }
        alike = alike.wrapping_add(1);
    }
    Ok(alike)
}

fn alike_in_session(given: &Given<'_>, steps: u64) -> Result<u64, Fail> {
    let project = project_of(given.alloc, given.kind)?;
    let mut session = Session::new(given.alloc, project, CAPACITY)?;
    let mut plain = Plain::new(given.alloc);
    Ok(steps_alike(given, &mut session, &mut plain, steps)?)
}

fn alike_on(alloc: Global, kind: Kind, steps: u64) -> Result<u64, Fail> {
    let project = project_of(alloc, kind)?;
    let importer = importer(alloc)?;
    let root = root(alloc)?;
    let given = Given {
        alloc,
        kind,
        project: &project,
        importer: &importer,
        root: &root,
    };
    alike_in_session(&given, steps)
}

#[test]
fn each_outcome_is_that_of_the_tree_as_it_is(rt: HostRuntime) -> Result<(), Fail> {
    for kind in [
        Kind::Plain,
        Kind::Manifest,
        Kind::BrowserMap,
        Kind::Mapping,
        Kind::Lock,
    ] {
        assert_eq!(rt; alike_on(rt.alloc(), kind, 400)?, 400, "{kind:?}");
    }
    Ok(())
}
