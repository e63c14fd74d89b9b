// Random lists of edits on each kind of project: after each the graph is the one that is made anew on a plain tree with
// the same files.
ghost use Rattle.std.specs.Prelude.{◌<◌};

use crate::plain::Plain;
use crate::project::{Kind, manifest, project_of, session_of, texts_of};
use import_graph::{GraphSession, LineScan};
use resolve_stack::Project;
use std::alloc::{AllocError, Global};
use std::test::Fail;
use sugar_path::Text;
use tree_core::MemoryTree;

// What is edited: files that import each other, and files that requests ask for.
fn paths() -> &'static str {
    "/w/a.js
/w/b.ts
/w/c.js
/w/d.js
/w/part/index.js
/w/lib/foo/index.js
/w/node_modules/foo/index.js
/w/node_modules/foo/package.json
/w/.pnp.cjs
/w/part"
}

// The entries come and go, and one stands twice.
fn entry_paths() -> &'static str {
    "/w/a.js /w/part/index.js /w/gone.js /w/a.js"
}

// What files hold.
fn lines() -> &'static str {
    "import \"./a\"
import { b } from './b'
export * from \"./c\"
} from \"./d.js\"
import './part'
import \"foo\"
import \"../w/a.js\"
import fs from \"fs\"
import \"@app/index\"
const none = \"./a\""
}

// The next number of a plain generator, and one below `count` of its high bits.
fn pick(state: &mut u64, count: u64) -> usize
    requires { 0 < count }
    ensures { result < count }
{
    *state = state
        .wrapping_mul(6364136223846793005)
        .wrapping_add(1442695040888963407);
    ((*state >> 33) % count) as usize
}

fn line_at(lines: &'static str, place: usize) -> &'static str {
    let mut left = place;
    for line in lines.lines() {
        if left == 0 {
            return line;
        }
        left = left.wrapping_sub(1);
    }
    ""
}

// Some lines, with repeats.
fn content(alloc: Global, state: &mut u64) -> Result<String, AllocError> {
    let mut content = String::new(alloc);
    for _ in 0..pick(state, 6) {
        content.push_str(line_at(lines(), pick(state, 10)))?;
        content.push('\n')?;
    }
    Ok(content)
}

// Puts or removes a file in a session and beside it: whether both take the edit or refuse it.
fn edit(
    kind: Kind,
    session: &mut GraphSession<'static, LineScan>,
    plain: &mut Plain<'_>,
    state: &mut u64,
) -> Result<bool, AllocError> {
    let path = match line_at(paths(), pick(state, 10)) {
        "/w/.pnp.cjs" if !matches!(kind, Kind::Manifest) => "/w/part.js",
        path => path,
    };
    if pick(state, 3) == 0 {
        let removed = session.remove(path).is_some();
        return Ok(removed == plain.tree.remove(path));
    }
    let content = content(plain.alloc, state)?;
    let text = match path {
        "/w/.pnp.cjs" => manifest(),
        "/w/node_modules/foo/package.json" => "{}",
        _ => content.as_str(),
    };
    let put = session.put(path, text.as_bytes(), path).is_ok();
    Ok(put == plain.tree.put(path, text.as_bytes(), path).is_ok())
}

// Whether the graph is the one that is made anew, and puts no question when it is asked for once more.
fn is_alike(
    session: &mut GraphSession<'static, LineScan>,
    plain: &mut Plain<'_>,
    entries: &[Text],
) -> Result<bool, AllocError> {
    let wanted = plain.graph(entries)?;
    let alike = *session.graph()? == wanted;
    let before = session.questions();
    let again = *session.graph()? == wanted;
    Ok(alike && again && session.questions() == before)
}

// One edit, after which the graph is asked for.
fn is_alike_after_edit(
    kind: Kind,
    session: &mut GraphSession<'static, LineScan>,
    plain: &mut Plain<'_>,
    state: &mut u64,
) -> Result<bool, AllocError> {
    let entries = texts_of(plain.alloc, entry_paths())?;
    if !edit(kind, session, plain, state)? {
        return Ok(false);
    }
    is_alike(session, plain, entries.as_slice())
}

// How many of two hundred edits leave the graph alike, until one doesn't.
fn edits_alike(
    kind: Kind,
    session: &mut GraphSession<'static, LineScan>,
    plain: &mut Plain<'_>,
) -> Result<u64, AllocError> {
    let mut state = 1;
    let mut alike: u64 = 0;
    for _ in 0..200 {
        if !is_alike_after_edit(kind, session, plain, &mut state)? {
            return Ok(alike);
        }
        alike = alike.wrapping_add(1);
    }
    Ok(alike)
}

fn alike_in(
    kind: Kind,
    mut session: GraphSession<'static, LineScan>,
    project: &Project<'static>,
    alloc: Global,
) -> Result<u64, AllocError> {
    let mut plain = Plain {
        alloc,
        project,
        tree: MemoryTree::new(alloc),
    };
    edits_alike(kind, &mut session, &mut plain)
}

fn alike_on(alloc: Global, kind: Kind, capacity: usize) -> Result<u64, Fail>
    requires { 0 < capacity }
{
    let project = project_of(alloc, kind)?;
    let session = session_of(alloc, kind, capacity, entry_paths())?;
    Ok(alike_in(kind, session, &project, alloc)?)
}

#[test]
fn each_graph_is_that_of_the_tree_as_it_is(rt: HostRuntime) -> Result<(), Fail> {
    for kind in [Kind::Plain, Kind::Manifest, Kind::Mapping] {
        assert_eq!(rt; alike_on(rt.alloc(), kind, 1000)?, 200, "{kind:?}");
    }
    Ok(())
}

#[test]
fn each_graph_is_that_of_the_tree_where_little_is_kept(rt: HostRuntime) -> Result<(), Fail> {
    for kind in [Kind::Plain, Kind::Manifest, Kind::Mapping] {
        assert_eq!(rt; alike_on(rt.alloc(), kind, 3)?, 200, "{kind:?}");
    }
    Ok(())
}
