// From words and a document to a status and a text.
ghost use Rattle.std.specs.Prelude.{ℕ, Bool, ◌≡◌, ◌↔◌, true, None, Some};
ghost use Rattle.disk_report.specs.Asked.{Asked};
ghost use Rattle.cli_core.specs.Command.{asked};
ghost use Rattle.cli_core.specs.Generates.{Generates};
ghost use Rattle.cli_core.specs.ListsImports.{ListsImports};
ghost use Rattle.cli_core.specs.OnDisk.{AsksDisk};
ghost use Rattle.cli_core.specs.Replays.{Replays};
ghost use Rattle.cli_core.specs.Reports.{Reports};
ghost use Rattle.cli_core.specs.Run.{CountsFaults, is_silent};
ghost use Rattle.cli_core.specs.declared.document_kind.DocumentKind.{DocumentKind};

use crate::command::{Command, command_of};
use crate::generating::generate;
use crate::importing::list_imports;
use crate::on_disk::ask_disk;
use crate::replaying::replay;
use crate::resolving::resolve;
use crate::sink::Sink;
use crate::source::Source;
use crate::status::Status;
use std::alloc::Global;
use tree_core::Tree;

/// Runs a command. `resolve` reads one document from the source, and writes a line for each of its requests to the
/// sink, with its trail behind the word `--trail`, or a text for people behind `--explain`; or the line of the first
/// cause against the document. `session` does that with the steps of a session document, `graph` with those of a graph
/// document, and `audit` with the audit that an audit document asks for. `bundle` writes the bundle of a document's
/// requests, and `replay` the lines of a bundle's verdicts. `imports` reads a source text, and writes a line for each
/// of its imports. `generate` and a number resolves the generated project of so many packages, and writes its counts.
/// `disk`, a working folder, a target, an importer and specifiers resolves requests over the disk, and tells them as
/// `resolve` does; with `--bundle` it writes their bundle.
pub fn run<S: Source, K: Sink, T: Tree>(
    alloc: Global,
    words: &[String],
    source: &mut S,
    sink: &mut K,
    disk: &mut T,
) -> Status
    // Words that are no command leave all as it was.
    ensures usage { (result ≡ Status.Usage) ↔ (asked words.now ≡ None) }
    ensures untouched { asked words.now ≡ None →
        (source.new ≡ source.old) × (sink.new ≡ sink.old) × (disk.new ≡ disk.old) }

    // What each command reads and writes, and how it ends.
    ensures reports { (kind : DocumentKind) → asked words.now ≡ Some (Command.Report kind) →
        (disk.new ≡ disk.old) × Reports kind result (S.state source.old) (S.state source.new)
        (K.state sink.old) (K.state sink.new) }
    ensures replays { asked words.now ≡ Some Command.Replay →
        (disk.new ≡ disk.old) × Replays result (S.state source.old) (S.state source.new)
        (K.state sink.old) (K.state sink.new) }
    ensures imports { (jsx : Bool) → asked words.now ≡ Some (Command.Imports jsx) →
        (disk.new ≡ disk.old) × ListsImports jsx result (S.state source.old) (S.state source.new)
        (K.state sink.old) (K.state sink.new) }
    ensures generates { (size : ℕ) → asked words.now ≡ Some (Command.Generate size) →
        (source.new ≡ source.old) × (disk.new ≡ disk.old)
        × Generates size result (K.state sink.old) (K.state sink.new) }
    ensures asks { (request : Asked) → asked words.now ≡ Some (Command.Disk request) →
        (source.new ≡ source.old) × AsksDisk request result
        (K.state sink.old) (K.state sink.new) (T.state disk.old) (T.state disk.new) }

    // What all of them keep.
    ensures faults { CountsFaults result (S.state source.old) (S.state source.new)
        (K.state sink.old) (K.state sink.new) (T.state disk.old) (T.state disk.new) }
    ensures silent { is_silent result ≡ true →
        (K.state sink.new).written ≡ (K.state sink.old).written }
    ensures stands { (T.state disk.new).stands_for ≡ (T.state disk.old).stands_for }
{
    let Some(command) = command_of(words) else {
        return Status::Usage;
    };
    match command {
        Command::Report(kind) => resolve(alloc, kind, source, sink),
        Command::Replay => replay(alloc, source, sink),
        Command::Imports { jsx } => list_imports(alloc, jsx, source, sink),
        Command::Generate { size } => generate(alloc, size, sink),
        Command::Disk(request) => ask_disk(alloc, &request, sink, disk),
    }
}
