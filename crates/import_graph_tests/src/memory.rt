// Want of memory: whichever allocation fails, the next graph that is answered is that of the tree.
use crate::project::{Kind, session_of};
use import_graph::{GraphSession, LineScan};
use std::alloc::AllocError;
use std::test::Fail;

// The counts of the graph's nodes and edges.
fn counts(session: &mut GraphSession<'static, LineScan>) -> Result<(usize, usize), AllocError> {
    let graph = session.graph()?;
    let nodes = graph.nodes.as_slice();
    Ok((
        nodes.len(),
        nodes
            .iter()
            .map(|node| node.edges.as_slice().len())
            .max()
            .unwrap_or(0),
    ))
}

// The counts; where memory is wanted, those of the next call.
fn counts_at_last(
    session: &mut GraphSession<'static, LineScan>,
) -> Result<(usize, usize), AllocError> {
    match counts(session) {
        Ok(told) => Ok(told),
        Err(_) => counts(session),
    }
}

// A small graph, and the one after an edit.
fn told_of(session: &mut GraphSession<'static, LineScan>) -> Result<[(usize, usize); 2], Fail> {
    session.put("/w/a.js", b"import './b'\nimport './c'\n", "/w/a.js")?;
    session.put("/w/b.js", b"import './a.js'\n", "/w/b.js")?;
    let first = counts_at_last(session)?;
    session.put(
        "/w/c.js",
        b"import './b'\nimport './a'\nimport 'd'\n",
        "/w/c.js",
    )?;
    Ok([first, counts_at_last(session)?])
}

fn told_at_last(mut session: GraphSession<'static, LineScan>) -> Result<[(usize, usize); 2], Fail> {
    told_of(&mut session)
}

#[test]
fn a_graph_after_want_of_memory(rt: HostRuntime) -> Result<(), Fail> {
    let session = session_of(rt.alloc(), Kind::Plain, 20, "/w/a.js")?;
    assert_eq!(rt;
        told_at_last(session)?.as_slice(),
        [(2, 2), (3, 3)].as_slice()
    );
    Ok(())
}
