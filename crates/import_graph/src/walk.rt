// The walk from entries over all files that they lead to.
ghost use Rattle.std.specs.Prelude.{◌≡◌, ◌∷◌, [], IfOk, OnOk, bytes_eq, flat_map};
ghost use Rattle.std.specs.List.{IsDistinct};
ghost use Rattle.std.specs.Option.{option_copied};
ghost use Rattle.indexmap.specs.IndexSet.{insert_all};
ghost use Rattle.session_core.specs.SessionView.{state_of};
ghost use Rattle.import_graph.specs.Graph.{first_files, found_by, found_file, graph_on, missing_from, node_on};
ghost use Rattle.import_graph.specs.GraphState.{IsSameBut, after_asks, requests_at, requests_of};
ghost use Rattle.import_graph.specs.Walked.{IsReached};

use crate::graph::{Edge, Graph, Node};
use crate::scan::Scan;
use crate::sources::Sources;
use indexmap::IndexSet;
use resolve_stack::Verdict;
use std::alloc::{AllocError, Global};
use sugar_path::{List, Text};

// The graph from entries: each edge is asked once.
pub(crate) fn walk<S: Scan + Drop>(
    alloc: Global,
    sources: &mut Sources<'_, S>,
    entries: &[Text],
) -> Result<Graph, AllocError>
    ensures graph { IfOk result (λ g.
        g ≡ graph_on S.imports (state_of sources.old).tree.files (state_of sources.old).project entries.now) }
    ensures asked { IfOk result (λ g. state_of sources.new ≡ after_asks (state_of sources.old) (requests_of g)) }
    ensures same { IsSameBut (state_of sources.old) (state_of sources.new) }
{
    let missing = missing_from(alloc, sources, entries)?;
    let seen = first_files(alloc, sources, entries)?;
    let nodes = nodes_from(alloc, sources, seen)?;
    Ok(Graph { nodes, missing })
}

// The entries that are no files.
fn missing_from<S: Scan + Drop>(
    alloc: Global,
    sources: &Sources<'_, S>,
    entries: &[Text],
) -> Result<List<Text>, AllocError>
    ensures { IfOk result (λ missing. missing ≡ missing_from (state_of sources.now).tree.files entries.now) }
{
    let mut missing = Vec::new(alloc);
    for entry in entries {
        if !sources.is_file(entry.as_str()) {
            missing.push(entry.try_clone(alloc)?)?;
        }
    }
    Ok(List::from(missing))
}

// The entries that are files, each once.
fn first_files<S: Scan + Drop>(
    alloc: Global,
    sources: &Sources<'_, S>,
    entries: &[Text],
) -> Result<IndexSet<Text>, AllocError>
    ensures { IfOk result (λ seen. seen.keys ≡ first_files (state_of sources.now).tree.files entries.now) }
{
    let mut seen = IndexSet::new(alloc);
    for entry in entries {
        if sources.is_file(entry.as_str()) {
            seen.insert(entry.try_clone(alloc)?)?;
        }
    }
    Ok(seen)
}

// The nodes of files, and of those that these lead to. What is seen is a queue: files whose nodes are made stand in
// front.
fn nodes_from<S: Scan + Drop>(
    alloc: Global,
    sources: &mut Sources<'_, S>,
    mut seen: IndexSet<Text>,
) -> Result<List<Node>, AllocError>
    requires { IsDistinct bytes_eq seen.keys }
    ensures nodes { IfOk result (λ nodes. IsReached S.imports (state_of sources.old) seen.keys nodes) }
    ensures asked { IfOk result (λ nodes.
        state_of sources.new ≡ after_asks (state_of sources.old) (flat_map requests_at nodes)) }
    ensures same { IsSameBut (state_of sources.old) (state_of sources.new) }
{
    let mut nodes = Vec::new(alloc);
    while let Some(file) = seen.get_index(nodes.len()) {
        let node = node_of(alloc, sources, file)?;
        see(alloc, &mut seen, &node)?;
        nodes.push(node)?;
    }
    Ok(List::from(nodes))
}

// The node of a file.
fn node_of<S: Scan + Drop>(
    alloc: Global,
    sources: &mut Sources<'_, S>,
    file: &Text,
) -> Result<Node, AllocError>
    ensures node { IfOk result (λ node.
        node ≡ node_on S.imports (state_of sources.old).tree.files (state_of sources.old).project file.now) }
    ensures asked { IfOk result (λ node. state_of sources.new ≡ after_asks (state_of sources.old) (requests_at node)) }
    ensures same { IsSameBut (state_of sources.old) (state_of sources.new) }
{
    let name = file.try_clone(alloc)?;
    let edges = sources.edges_of(file)?;
    Ok(Node { file: name, edges })
}

// The files that a node leads to are seen.
fn see(alloc: Global, seen: &mut IndexSet<Text>, node: &Node) -> Result<(), AllocError>
    ensures { OnOk result (seen.new.keys ≡ insert_all bytes_eq seen.old.keys (found_by node.now.edges)) }
{
    for edge in node.edges.as_slice() {
        if let Some(file) = found_file(&edge.verdict) {
            note_seen(alloc, seen, file)?;
        }
    }
    Ok(())
}

// A file is seen. One that was seen before takes no memory.
fn note_seen(alloc: Global, seen: &mut IndexSet<Text>, file: &Text) -> Result<(), AllocError>
    ensures { OnOk result (seen.new.keys ≡ insert_all bytes_eq seen.old.keys (file.now ∷ [])) }
{
    if !seen.contains(file) {
        seen.insert(file.try_clone(alloc)?)?;
    }
    Ok(())
}

// The file that a verdict finds.
fn found_file(verdict: &Verdict) -> Option<&Text>
    ensures { option_copied result ≡ found_file verdict.now }
{
    match verdict {
        Verdict::Answered(answer) => match &answer.found {
            Some(found) => Some(&found.file),
            None => None,
        },
        Verdict::Refused(_) => None,
    }
}
