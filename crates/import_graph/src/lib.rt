//! What the files of a project import, and the graph of all files that are reached so.
#![tactic(auto)]

mod es_scan;
mod graph;
mod graph_error;
mod graph_session;
mod imports;
pub mod laws;
mod lines;
mod scan;
mod sources;
mod walk;

pub use es_scan::{EsScan, scan_es};
pub use graph::{Edge, Graph, Node};
pub use graph_error::GraphError;
pub use graph_session::{GraphSession, first_unclean};
pub use lines::scan_lines;
pub use scan::{LineScan, Scan};
