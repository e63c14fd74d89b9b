// The import graph made anew, level by level, by lists alone and by each request resolved for itself.
use import_graph::{Edge, Graph, Node, scan_lines};
use resolve_stack::{FileName, Project, Verdict, resolve_import};
use std::alloc::{AllocError, Global};
use sugar_path::{List, Text};
use tree_core::MemoryTree;

/// What a graph is made by.
#[derive(Drop)]
pub(crate) struct Plain<'g> {
    pub alloc: Global,
    pub project: &'g Project<'static>,
    pub tree: MemoryTree,
}

impl Plain<'_> {
    /// The graph from entries on the tree.
    pub(crate) fn graph(&mut self, entries: &[Text]) -> Result<Graph, AllocError> {
        let mut nodes = Vec::new(self.alloc);
        let mut level = self.first_level(entries)?;
        // as many levels as the tests have files, and more
        for _ in 0..100 {
            level = self.next_level(&mut nodes, level.as_slice())?;
        }
        Ok(Graph {
            nodes: List::from(nodes),
            missing: self.missing(entries)?,
        })
    }

    fn missing(&self, entries: &[Text]) -> Result<List<Text>, AllocError> {
        let mut missing = Vec::new(self.alloc);
        for entry in entries {
            if self.tree.file(entry.as_str()).is_none() {
                missing.push(entry.try_clone(self.alloc)?)?;
            }
        }
        Ok(List::from(missing))
    }

    fn first_level(&self, entries: &[Text]) -> Result<Vec<Text>, AllocError> {
        let mut level = Vec::new(self.alloc);
        for entry in entries {
            if self.tree.file(entry.as_str()).is_some() && !level.contains(entry) {
                level.push(entry.try_clone(self.alloc)?)?;
            }
        }
        Ok(level)
    }

    // Adds the nodes of a level, and gives the files that they lead to and that have no node.
    fn next_level(
        &mut self,
        nodes: &mut Vec<Node>,
        level: &[Text],
    ) -> Result<Vec<Text>, AllocError> {
        let before = nodes.len();
        for file in level {
            nodes.push(self.node(file)?)?;
        }
        let mut next = Vec::new(self.alloc);
        for node in nodes.iter().skip(before) {
            self.add_found(nodes.as_slice(), node, &mut next)?;
        }
        Ok(next)
    }

    fn add_found(
        &self,
        nodes: &[Node],
        node: &Node,
        next: &mut Vec<Text>,
    ) -> Result<(), AllocError> {
        for edge in node.edges.as_slice() {
            if let Some(file) = found_by(&edge.verdict)
                && !has_node(nodes, file)
                && !next.contains(file)
            {
                next.push(file.try_clone(self.alloc)?)?;
            }
        }
        Ok(())
    }

    fn node(&mut self, file: &Text) -> Result<Node, AllocError> {
        let texts = match self.tree.file(file.as_str()) {
            Some(bytes) => scan_lines(self.alloc, bytes)?,
            None => List::new(self.alloc),
        };
        let name = file.try_clone(self.alloc)?;
        let importer = FileName::Real(file.try_clone(self.alloc)?);
        let mut edges = Vec::new(self.alloc);
        for text in texts.as_slice() {
            if !has_edge(edges.as_slice(), text) {
                edges.push(self.edge(&importer, text)?)?;
            }
        }
        Ok(Node {
            file: name,
            edges: List::from(edges),
        })
    }

    fn edge(&mut self, importer: &FileName, text: &Text) -> Result<Edge, AllocError> {
        let specifier = text.try_clone(self.alloc)?;
        let tree = &mut self.tree;
        match resolve_import(self.alloc, tree, self.project, importer, text.as_str()) {
            Ok(outcome) => Ok(Edge {
                specifier,
                verdict: outcome.verdict,
            }),
            Err(_) => Err(AllocError),
        }
    }
}

fn has_node(nodes: &[Node], file: &Text) -> bool {
    nodes.iter().any(|node| node.file == *file)
}

fn has_edge(edges: &[Edge], text: &Text) -> bool {
    edges.iter().any(|edge| edge.specifier == *text)
}

/// The file that a verdict finds.
pub(crate) fn found_by(verdict: &Verdict) -> Option<&Text> {
    match verdict {
        Verdict::Answered(answer) => match &answer.found {
            Some(found) => Some(&found.file),
            None => None,
        },
        Verdict::Refused(_) => None,
    }
}
