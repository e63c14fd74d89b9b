//! The program: a document on the standard input, and a line for each of its requests on the standard output. What
//! people are told stands on the standard error.
#![tactic(auto)]

ghost use Rattle.std.specs.Prelude.{◌≡◌, ◌≢◌, ◌⊎◌, ◌↔◌, Err, IfOk, IfErr, IsOkAnd, IsErrAnd, drop};
ghost use Rattle.std.specs.IoError.{error_kind};
ghost use Rattle.std.specs.Vec.Iter.{into_iter_items};

mod keeping_source;
mod unnamed;

use crate::keeping_source::KeepingSource;
use crate::unnamed::Unnamed;
use cli_core::{ReaderSource, Status, WriterSink, run};
use command_help::{Topic, topic_of, wrong_words};
use disk_tree::{DiskFault, DiskTree};
use document_faults::{Format, told_of};
use std::alloc::{AllocError, Global};
use std::env::Args;
use std::io::ErrorKind;
use std::process::ExitCode;
use std::{env, io};

fn main(rt: HostRuntime) -> ExitCode {
    let args = env::args(&(Unnamed { rt: &rt }, rt.alloc()));
    let status = match words(rt.alloc(), args) {
        Ok(words) => match topic_of(&words) {
            Some(topic) => help(&rt, topic),
            None => run_and_tell(&rt, &words),
        },
        Err(status) => status,
    };
    ExitCode::from(status.code())
}

// Help goes to the standard output, as what was asked for.
fn help(rt: &HostRuntime, topic: Topic) -> Status {
    match print!(rt; "{}", topic.text()) {
        Ok(()) => Status::Done,
        Err(_) => Status::WriteFault,
    }
}

// Runs the command; where it ends in another way than with a report, people are told why.
fn run_and_tell(rt: &HostRuntime, words: &[String]) -> Status {
    let alloc = rt.alloc();
    let mut source = KeepingSource::new(alloc, ReaderSource::new(rt.stdin()));
    let mut disk = DiskTree::new(rt);
    let status = run(
        alloc,
        words,
        &mut source,
        &mut WriterSink::new(rt.stdout()),
        &mut disk,
    );
    // A line that isn't told changes nothing of how the run ended.
    let _told = match status {
        Status::Usage => tell_wrong_words(rt, words),
        Status::Refused => tell_refusal(rt, words, source.kept()),
        status => match fault_line(status) {
            Some(line) => tell_fault(rt, line, disk.fault()),
            None => Ok(()),
        },
    };
    status
}

// What is wrong with the document that was read; under `disk` the working folder was refused, and of a source text the
// standard output says all.
fn tell_refusal(rt: &HostRuntime, words: &[String], document: Option<&[u8]>) -> io::Result<()> {
    let Some(word) = words.first() else {
        return Ok(());
    };
    if word.as_str() == "disk" {
        return eprintln!(rt; "the working folder isn't a clean absolute path");
    }
    let Some(format) = Format::read_by(word.as_str()) else {
        return Ok(());
    };
    match document {
        Some(bytes) => eprint!(rt; "{}", told_of(rt.alloc(), format, bytes)?),
        None => Ok(()),
    }
}

// A line, with the question that the disk refused.
fn tell_fault(rt: &HostRuntime, line: &str, fault: Option<&DiskFault>) -> io::Result<()> {
    match fault {
        Some(fault) => eprintln!(rt; "{line}: {fault}"),
        None => eprintln!(rt; "{line}"),
    }
}

fn tell_wrong_words(rt: &HostRuntime, words: &[String]) -> io::Result<()> {
    let wrong = wrong_words(rt.alloc(), words)?;
    eprintln!(rt; "{}", wrong.line(rt.alloc())?)
}

// What people are told of a status that writes no line.
fn fault_line(status: Status) -> Option<&'static str> {
    match status {
        Status::Done | Status::Refused | Status::Usage => None,
        Status::ReadFault => Some("the standard input could not be read"),
        Status::WriteFault => Some("the standard output could not be written"),
        Status::TooLong => Some("the document has more than 67,108,864 bytes"),
        Status::NoMemory => Some("no memory was found"),
        Status::TreeFault => Some("a question to the files of this machine failed"),
        Status::TwoReplies => {
            Some(
                "the files of this machine changed: one question got two replies, so there is no bundle",
            )
        }
    }
}

// The words behind the program's name, or how a run ends without them. Words that aren't UTF-8 are no command.
fn words(alloc: Global, args: io::Result<Args>) -> Result<Vec<String>, Status>
    ensures behind { IfOk result (λ words. IsOkAnd args (λ all.
        words.items ≡ drop 1 (into_iter_items all))) }
    ensures usage { (result ≡ Err Status.Usage) ↔ IsErrAnd args (λ e.
        error_kind e ≢ ErrorKind.OutOfMemory) }
    ensures status { IfErr result (λ status. (status ≡ Status.Usage) ⊎ (status ≡ Status.NoMemory)) }
{
    match args {
        Ok(args) => behind_name(alloc, args).map_err(|_| Status::NoMemory),
        Err(e) if e.kind() == ErrorKind::OutOfMemory => Err(Status::NoMemory),
        Err(_) => Err(Status::Usage),
    }
}

fn behind_name(alloc: Global, args: Args) -> Result<Vec<String>, AllocError>
    ensures { IfOk result (λ words. words.items ≡ drop 1 (into_iter_items args)) }
{
    args.skip(1).collect(alloc)
}
