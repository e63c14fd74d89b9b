// The formats of documents, and the fields that each of them has.

/// A format of documents.
#[derive(Clone, Copy, Debug, PartialEq, Eq)]
pub enum Format {
    /// Files and requests, of `resolve` and `bundle`.
    Requests,
    Session,
    Graph,
    Audit,
    Replay,
}

impl Format {
    /// The format of the documents that the command of this name reads.
    pub fn read_by(command: &str) -> Option<Format> {
        match command {
            "resolve" | "bundle" => Some(Format::Requests),
            "session" => Some(Format::Session),
            "graph" => Some(Format::Graph),
            "audit" => Some(Format::Audit),
            "replay" => Some(Format::Replay),
            _ => None,
        }
    }

    /// The fields of its documents, in the order in which they are read.
    pub fn fields(self) -> &'static [&'static str] {
        match self {
            Format::Requests => &REQUESTS,
            Format::Session => &SESSION,
            Format::Graph => &GRAPH,
            Format::Audit => &AUDIT,
            Format::Replay => &REPLAY,
        }
    }

    // The fields of its steps, of which each step has one.
    pub(crate) fn step_fields(self) -> &'static [&'static str] {
        match self {
            Format::Session => &SESSION_STEP,
            Format::Graph => &GRAPH_STEP,
            Format::Requests | Format::Audit | Format::Replay => &[],
        }
    }

    // Whether its documents have files.
    pub(crate) fn has_files(self) -> bool {
        match self {
            Format::Requests | Format::Session | Format::Graph | Format::Audit => true,
            Format::Replay => false,
        }
    }
}

const REQUESTS: [&str; 10] = [
    "cwd",
    "target",
    "preserve_symlinks",
    "node_modules",
    "alias",
    "ts",
    "lock",
    "conditions",
    "files",
    "requests",
];

const SESSION: [&str; 11] = [
    "cwd",
    "target",
    "preserve_symlinks",
    "node_modules",
    "alias",
    "ts",
    "lock",
    "conditions",
    "files",
    "capacity",
    "steps",
];

const GRAPH: [&str; 13] = [
    "cwd",
    "target",
    "preserve_symlinks",
    "node_modules",
    "alias",
    "ts",
    "lock",
    "conditions",
    "files",
    "entries",
    "capacity",
    "steps",
    "scanner",
];

const AUDIT: [&str; 10] = [
    "cwd",
    "target",
    "preserve_symlinks",
    "node_modules",
    "alias",
    "ts",
    "lock",
    "conditions",
    "files",
    "manifest",
];

const REPLAY: [&str; 9] = [
    "cwd",
    "target",
    "preserve_symlinks",
    "node_modules",
    "alias",
    "ts",
    "lock",
    "conditions",
    "bundle",
];

const SESSION_STEP: [&str; 3] = ["ask", "put", "remove"];

const GRAPH_STEP: [&str; 3] = ["graph", "put", "remove"];

// The fields of a file, of a request, of an importer with a name of its own, and of a mapping.
pub(crate) const FILE: [&str; 4] = ["path", "text", "hex", "canonical"];

pub(crate) const REQUEST: [&str; 2] = ["from", "specifier"];

pub(crate) const CUSTOM: [&str; 1] = ["custom"];

pub(crate) const MAPPING: [&str; 3] = ["base_url", "paths", "version"];
