// The lines of the steps over an import graph.
ghost use Rattle.std.specs.Prelude.{◌≡◌, IfOk, OnOk, map, string_bytes};
ghost use Rattle.serde_json.specs.Data.{array, string};
ghost use Rattle.serde_json.specs.View.{items_of};
ghost use Rattle.report_core.specs.Puts.{IsPut};
ghost use Rattle.session_report.specs.Lines.{line_of};
ghost use Rattle.import_graph.specs.GraphView.{graph_state};
ghost use Rattle.graph_report.specs.Lines.{LeavesAfter, edge_value, graph_value, node_value, step_line, step_lines};
ghost use Rattle.graph_report.specs.declared.step.GraphStep.TheVariants as step;

use crate::step::GraphStep;
use document_core::GivenFile;
use import_graph::{Edge, Graph, GraphSession, Node, Scan};
use report_core::{put_comma, put_member, put_text, put_verdict};
use session_report::{line_of_put, line_of_removal};
use std::alloc::{AllocError, Global};
use sugar_path::Text;

/// Takes steps in order, and gives their lines.
pub(crate) fn lines_of<S: Scan + Drop>(
    alloc: Global,
    session: &mut GraphSession<'_, S>,
    steps: &[GraphStep],
) -> Result<String, AllocError>
    ensures { IfOk result (λ lines.
        string_bytes lines ≡ step_lines S.imports (graph_state session.old) steps.now) }
{
    let mut lines = String::new(alloc);
    for step in steps {
        let line = line_of(alloc, session, step)?;
        lines.push_str(line.as_str())?;
    }
    Ok(lines)
}

// Takes one step, and gives its line.
fn line_of<S: Scan + Drop>(
    alloc: Global,
    session: &mut GraphSession<'_, S>,
    step: &GraphStep,
) -> Result<String, AllocError>
    ensures line { IfOk result (λ line.
        string_bytes line ≡ step_line S.imports (graph_state session.old) step.now) }
    ensures taken { OnOk result
        (LeavesAfter S.imports step.now (graph_state session.old) (graph_state session.new)) }
{
    match step {
        GraphStep::Graph => ask(alloc, session),
        GraphStep::Put(file) => put(alloc, session, file),
        GraphStep::Remove(path) => remove(alloc, session, path.as_str()),
    }
}

// Asks for the graph: the line is that of the graph.
fn ask<S: Scan + Drop>(
    alloc: Global,
    session: &mut GraphSession<'_, S>,
) -> Result<String, AllocError>
    ensures line { IfOk result (λ line.
        string_bytes line ≡ step_line S.imports (graph_state session.old) step.Graph) }
    ensures taken { OnOk result
        (LeavesAfter S.imports step.Graph (graph_state session.old) (graph_state session.new)) }
{
    line_of_graph(alloc, session.graph()?)
}

// Puts a file: the line tells how many outcomes are dropped, or why the file is refused.
fn put<S: Scan + Drop>(
    alloc: Global,
    session: &mut GraphSession<'_, S>,
    file: &GivenFile,
) -> Result<String, AllocError>
    ensures line { IfOk result (λ line.
        string_bytes line ≡ step_line S.imports (graph_state session.old) (step.Put file.now)) }
    ensures taken { OnOk result
        (LeavesAfter S.imports (step.Put file.now) (graph_state session.old) (graph_state session.new)) }
{
    let path = file.path.as_str();
    let put = session.put(path, file.content.as_slice(), file.canonical.as_str());
    line_of_put(alloc, path, put)
}

// Takes a file out: the line tells how many outcomes are dropped, or that there is no such file.
fn remove<S: Scan + Drop>(
    alloc: Global,
    session: &mut GraphSession<'_, S>,
    path: &str,
) -> Result<String, AllocError>
    ensures line { IfOk result (λ line.
        string_bytes line ≡ step_line S.imports (graph_state session.old) (step.Remove path.now)) }
    ensures taken { OnOk result
        (LeavesAfter S.imports (step.Remove path.now) (graph_state session.old) (graph_state session.new)) }
{
    let dropped = session.remove(path);
    line_of_removal(alloc, dropped)
}

// The line of a graph.
#[tactic(auto, unfolding(session_report::specs::Lines::line_of))]
fn line_of_graph(alloc: Global, graph: &Graph) -> Result<String, AllocError>
    ensures { IfOk result (λ line. string_bytes line ≡ line_of (graph_value graph.now)) }
{
    let mut line = String::new(alloc);
    put_graph(&mut line, graph)?;
    line.push_str("\n")?;
    Ok(line)
}

// Puts a graph.
fn put_graph(out: &mut String, graph: &Graph) -> Result<(), AllocError>
    ensures { OnOk result (IsPut (string_bytes out.old) (string_bytes out.new) (graph_value graph.now)) }
{
    out.push_str("{")?;
    put_member(out, false, "missing")?;
    put_texts(out, graph.missing.as_slice())?;
    put_member(out, true, "nodes")?;
    put_nodes(out, graph.nodes.as_slice())?;
    out.push_str("}")
}

fn put_texts(out: &mut String, texts: &[Text]) -> Result<(), AllocError>
    ensures { OnOk result (IsPut (string_bytes out.old) (string_bytes out.new)
        (array (items_of (map string texts.now)))) }
{
    out.push_str("[")?;
    for (i, text) in texts.iter().enumerate() {
        put_comma(out, 0 < i)?;
        put_text(out, text.as_str())?;
    }
    out.push_str("]")
}

fn put_nodes(out: &mut String, nodes: &[Node]) -> Result<(), AllocError>
    ensures { OnOk result (IsPut (string_bytes out.old) (string_bytes out.new)
        (array (items_of (map node_value nodes.now)))) }
{
    out.push_str("[")?;
    for (i, node) in nodes.iter().enumerate() {
        put_comma(out, 0 < i)?;
        put_node(out, node)?;
    }
    out.push_str("]")
}

// Puts a file with its imports.
fn put_node(out: &mut String, node: &Node) -> Result<(), AllocError>
    ensures { OnOk result (IsPut (string_bytes out.old) (string_bytes out.new) (node_value node.now)) }
{
    out.push_str("{")?;
    put_member(out, false, "edges")?;
    put_edges(out, node.edges.as_slice())?;
    put_member(out, true, "file")?;
    put_text(out, node.file.as_str())?;
    out.push_str("}")
}

fn put_edges(out: &mut String, edges: &[Edge]) -> Result<(), AllocError>
    ensures { OnOk result (IsPut (string_bytes out.old) (string_bytes out.new)
        (array (items_of (map edge_value edges.now)))) }
{
    out.push_str("[")?;
    for (i, edge) in edges.iter().enumerate() {
        put_comma(out, 0 < i)?;
        put_edge(out, edge)?;
    }
    out.push_str("]")
}

// Puts an import with its verdict.
fn put_edge(out: &mut String, edge: &Edge) -> Result<(), AllocError>
    ensures { OnOk result (IsPut (string_bytes out.old) (string_bytes out.new) (edge_value edge.now)) }
{
    out.push_str("{")?;
    put_member(out, false, "specifier")?;
    put_text(out, edge.specifier.as_str())?;
    put_member(out, true, "verdict")?;
    put_verdict(out, &edge.verdict)?;
    out.push_str("}")
}
