//! Graph documents: the steps over an import graph, and the line of each.
#![tactic(auto)]

mod document;
mod lines;
mod report;
mod scanner;
mod step;

pub use document::{GraphDocument, read_graph_document};
pub use report::graph_report_for;
pub use scanner::Scanner;
pub use step::GraphStep;
