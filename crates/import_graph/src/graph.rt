// Import graphs.
use resolve_stack::Verdict;
use sugar_path::{List, Text};

/// An import of a file, with the verdict of its request.
#[derive(Debug, Drop, PartialEq, Eq)]
pub struct Edge {
    /// The specifier, as the file has it.
    pub specifier: Text,
    pub verdict: Verdict,
}

/// A file that is reached, and its imports in order, each once.
#[derive(Debug, Drop, PartialEq, Eq)]
pub struct Node {
    /// The file's path.
    pub file: Text,
    pub edges: List<Edge>,
}

/// The files that are reached from entries, with their imports.
#[derive(Debug, Drop, PartialEq, Eq)]
pub struct Graph {
    /// Each file once: the entries first, then the files that these lead to, and so on.
    pub nodes: List<Node>,
    /// The entries that are no files, in order.
    pub missing: List<Text>,
}
