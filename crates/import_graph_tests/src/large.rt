// Long chains and wide files, and how often files are scanned.
use crate::plain::found_by;
use crate::project::{Kind, scanned_session, session_of};
use import_graph::{Graph, GraphSession, LineScan, Scan, scan_lines};
use std::alloc::{AllocError, Global};
use std::cell::Cell;
use std::test::Fail;
use sugar_path::{List, Text};

// Tells imports by lines, and counts how often it is asked.
#[derive(Drop)]
struct CountingScan<'c> {
    count: &'c Cell<u64>,
}

impl Scan for CountingScan<'_> {
    ghost use Rattle.import_graph.specs.Lines.{imports_of};

    ghost imports = { imports_of };

    fn scan(&self, alloc: Global, bytes: &[u8]) -> Result<List<Text>, AllocError> {
        self.count.set(self.count.get().saturating_add(1));
        scan_lines(alloc, bytes)
    }
}

// Puts files `/w/f0.js` and so on, each of which imports the next.
fn put_chain<S: Scan + Drop>(
    alloc: Global,
    session: &mut GraphSession<'static, S>,
    count: u64,
) -> Result<(), Fail> {
    for i in 0..count {
        let path = format!(in alloc; "/w/f{i}.js")?;
        let text = format!(in alloc; "import './f{}'\n", i.wrapping_add(1))?;
        session.put(path.as_str(), text.as_bytes(), path.as_str())?;
    }
    Ok(())
}

// How many nodes of a chain stand in order, each leading to the next.
fn chained(alloc: Global, graph: &Graph) -> Result<u64, AllocError> {
    let mut count: u64 = 0;
    for node in graph.nodes.as_slice() {
        if node.file.as_str() != format!(in alloc; "/w/f{count}.js")?.as_str() {
            return Ok(count);
        }
        count = count.wrapping_add(1);
    }
    Ok(count)
}

// How many edges of all nodes lead to a file.
fn answered(graph: &Graph) -> u64 {
    let mut count: u64 = 0;
    for node in graph.nodes.as_slice() {
        for edge in node.edges.as_slice() {
            if found_by(&edge.verdict).is_some() {
                count = count.wrapping_add(1);
            }
        }
    }
    count
}

// How many nodes of a chain of so many files stand in order, and how many of their edges lead to a file.
fn chain_of(
    alloc: Global,
    mut session: GraphSession<'static, LineScan>,
    count: u64,
) -> Result<(u64, u64), Fail> {
    followed(alloc, &mut session, count)
}

fn followed(
    alloc: Global,
    session: &mut GraphSession<'static, LineScan>,
    count: u64,
) -> Result<(u64, u64), Fail> {
    put_chain(alloc, session, count)?;
    let graph = session.graph()?;
    Ok((chained(alloc, graph)?, answered(graph)))
}

#[test]
fn a_chain_is_followed_to_its_end(rt: HostRuntime) -> Result<(), Fail> {
    let session = session_of(rt.alloc(), Kind::Plain, 65_536, "/w/f0.js")?;
    let told = chain_of(rt.alloc(), session, 10_000)?;
    assert_eq!(rt; told.0, 10_000);
    // the last one imports a file that isn't there
    assert_eq!(rt; told.1, 9_999);
    Ok(())
}

// So many imports.
fn many_imports(alloc: Global, count: u64) -> Result<String, AllocError> {
    let mut text = String::new(alloc);
    for i in 0..count {
        text.push_str(format!(in alloc; "import './f{i}'\n")?.as_str())?;
    }
    Ok(text)
}

// How many nodes there are, and how many edges lead to a file, where one file imports many.
fn wide(
    alloc: Global,
    mut session: GraphSession<'static, LineScan>,
    text: &str,
) -> Result<(usize, u64), Fail> {
    widened(alloc, &mut session, text)
}

fn widened(
    alloc: Global,
    session: &mut GraphSession<'static, LineScan>,
    text: &str,
) -> Result<(usize, u64), Fail> {
    session.put("/w/a.js", text.as_bytes(), "/w/a.js")?;
    put_chain(alloc, session, 100)?;
    let graph = session.graph()?;
    Ok((graph.nodes.as_slice().len(), answered(graph)))
}

#[test]
fn one_file_imports_many(rt: HostRuntime) -> Result<(), Fail> {
    let text = many_imports(rt.alloc(), 10_000)?;
    let session = session_of(rt.alloc(), Kind::Plain, 65_536, "/w/a.js")?;
    let told = wide(rt.alloc(), session, text.as_str())?;
    assert_eq!(rt; told.0, 101);
    assert_eq!(rt; told.1, 199);
    Ok(())
}

// How many nodes the graph has.
fn node_count(session: &mut GraphSession<'static, CountingScan<'_>>) -> Result<usize, Fail> {
    Ok(session.graph()?.nodes.as_slice().len())
}

// One file is put anew, with one that it leads to: how many nodes the graph has then.
fn count_after_puts(session: &mut GraphSession<'static, CountingScan<'_>>) -> Result<usize, Fail> {
    session.put("/w/f7.js", b"import './f8'\nimport './g'\n", "/w/f7.js")?;
    session.put("/w/g.js", b"", "/w/g.js")?;
    node_count(session)
}

// The counts of nodes of a chain of twenty files, after two puts, after a removal, and once more.
fn counted(
    alloc: Global,
    session: &mut GraphSession<'static, CountingScan<'_>>,
) -> Result<[usize; 4], Fail> {
    put_chain(alloc, session, 20)?;
    let first = node_count(session)?;
    let put = count_after_puts(session)?;
    session.remove("/w/f12.js");
    Ok([first, put, node_count(session)?, node_count(session)?])
}

fn counts_of(
    alloc: Global,
    mut session: GraphSession<'static, CountingScan<'_>>,
) -> Result<[usize; 4], Fail> {
    counted(alloc, &mut session)
}

#[test]
fn an_unchanged_file_is_not_scanned_again(rt: HostRuntime) -> Result<(), Fail> {
    let count = Cell::new(0);
    let scanner = CountingScan { count: &count };
    let session = scanned_session(rt.alloc(), Kind::Plain, 100, scanner, "/w/f0.js")?;
    let counts = counts_of(rt.alloc(), session)?;
    assert_eq!(rt; counts.as_slice(), [20, 21, 13, 13].as_slice());
    // the twenty, and the two that were put later
    assert_eq!(rt; count.get(), 22);
    Ok(())
}
