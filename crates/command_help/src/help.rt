// The texts of help.
use crate::topic::Topic;
use crate::wrong::WrongWords;
use std::alloc::{AllocError, Global};

const PROGRAM: &str = "\
yuzkhatvo: which file a specifier means, asked from an importer, with the questions that decided it

  resolve              reads a document, writes a line for each of its requests: with its questions behind --trail,
                       and in place of it a text for people behind --explain
  session              reads a session document, writes a line for each of its steps
  graph                reads a graph document, writes the files that its entries lead to, over edits
  audit                reads an audit document, writes each binding that the registry or the lock refuses
  bundle               reads a document, writes the trails of its requests as one text
  replay               reads a bundle with its project, writes the line of each request
  imports              reads a source text, writes a line for each of its imports
  generate N           resolves a generated project of N packages, writes its counts
  disk CWD TARGET IMPORTER SPECIFIER..
                       resolves requests over the files of this machine, told as resolve does; with --bundle as one text
  help [COMMAND], --help, --version

Documents are JSON; they and source texts are read from standard input.
Status: 0 written, 1 refused (a line says why), 2 wrong words, 3 not read, 4 not written, 5 too long, 6 no memory,
7 a question to the files failed.
";

const VERSION: &str = "yuzkhatvo 0.1.0\n";

const RESOLVE: &str = "\
resolve [--trail | --explain]

Reads a document from standard input: a working folder, files and requests, as docs/FORMATS.md has it. Writes a line of
JSON for each request: an answer with the file that was found, or a refusal. With --trail each line has the questions
that were put to the files, with their replies. With --explain a text for people stands in its place: each question with
what was there, and the answer, or what would help. A document that is refused gets one line, `refused: CAUSE`.
";

const SESSION: &str = "\
session

Reads a session document from standard input: a project, a capacity and steps (ask, put, remove). Writes a line of JSON
for each step. Outcomes are kept, and an edit drops just those that it can change.
";

const GRAPH: &str = "\
graph

Reads a graph document from standard input: a project, a capacity, entries and steps (graph, put, remove). Writes for
each graph a line of JSON for every file that the entries lead to, with its imports and where each of them leads.
";

const AUDIT: &str = "\
audit

Reads an audit document from standard input: a project with a manifest and a lock. Writes a line of JSON for each
binding that the registry or the lock refuses, one for each entry of the lock that nothing uses, and the counts.
";

const BUNDLE: &str = "\
bundle

Reads a document as resolve does. Writes the trails of its requests as one text, from which replay gives the lines of
the same requests on any machine.
";

const REPLAY: &str = "\
replay

Reads an object with a project and a bundle from standard input. Writes the line of each request of the bundle, from its
replies alone.
";

const IMPORTS: &str = "\
imports [--jsx]

Reads a source text of JavaScript or TypeScript from standard input. Writes a line of JSON for each of its imports: the
form, how many bytes stand before its literal, the specifier, and whether it imports types alone. Elements of JSX are
read with --jsx. A text that isn't one of the language gets one line, `refused: CAUSE PLACE`.
";

const GENERATE: &str = "\
generate N

Resolves a generated project of N packages, a number from 1 to 1000, and writes its counts in a line of JSON.
";

const DISK: &str = "\
disk [--trail | --explain | --bundle] CWD TARGET IMPORTER SPECIFIER..

Resolves a request for each specifier over the files of this machine, and writes its line of JSON. CWD is the working
folder, a clean absolute path; TARGET is node or browser; IMPORTER is the file that asks. With --trail each line has the
questions that were put to the files, with their replies; with --explain a text for people stands in its place. With
--bundle the trails of all requests are written as one text, for a bug report: replay gives their lines from it on any
machine. Where the files change meanwhile, so that one question gets two replies, there is no bundle: status 7.
";

impl Topic {
    /// The help about it, for people; it ends in a line end.
    pub fn text(&self) -> &'static str {
        match self {
            Topic::Program => PROGRAM,
            Topic::Version => VERSION,
            Topic::Resolve => RESOLVE,
            Topic::Session => SESSION,
            Topic::Graph => GRAPH,
            Topic::Audit => AUDIT,
            Topic::Bundle => BUNDLE,
            Topic::Replay => REPLAY,
            Topic::Imports => IMPORTS,
            Topic::Generate => GENERATE,
            Topic::Disk => DISK,
        }
    }

    /// The words that it takes, in one line.
    pub fn usage(&self) -> &'static str {
        match self {
            Topic::Program | Topic::Version => "help [COMMAND], --help, --version",
            Topic::Resolve => "resolve [--trail | --explain] < DOCUMENT",
            Topic::Session => "session < DOCUMENT",
            Topic::Graph => "graph < DOCUMENT",
            Topic::Audit => "audit < DOCUMENT",
            Topic::Bundle => "bundle < DOCUMENT",
            Topic::Replay => "replay < DOCUMENT",
            Topic::Imports => "imports [--jsx] < TEXT",
            Topic::Generate => "generate N, a number from 1 to 1000",
            Topic::Disk => {
                "disk [--trail | --explain | --bundle] CWD TARGET IMPORTER SPECIFIER.., where TARGET is node or browser"
            }
        }
    }
}

impl WrongWords {
    /// What is wrong, in one line for people, without a line end.
    pub fn line(&self, alloc: Global) -> Result<String, AllocError> {
        match self {
            WrongWords::NoCommand { nearest: None } => {
                String::from_str(alloc, "no such command; `help` lists the commands")
            }
            WrongWords::NoCommand {
                nearest: Some(topic),
            } => { format!(in alloc; "no such command; did you mean this? {}", topic.usage()) }
            WrongWords::BadUse { of } => format!(in alloc; "usage: {}", of.usage()),
        }
    }
}
