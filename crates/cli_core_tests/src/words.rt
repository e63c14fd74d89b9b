// Words that ask for a generated project, and words that are no command.
use crate::documents::{bare_name, comes_to, ended};
use std::alloc::Global;
use std::test::Fail;

// Words, and the line of the project's counts.
fn sizes() -> &'static str {
    "generate 1|requests 2 answered 1 refused 1 questions 13
generate 7|requests 8 answered 7 refused 1 questions 73
generate 20|requests 21 answered 20 refused 1 questions 203"
}

// The first line has no words.
fn no_commands() -> &'static str {
    "
resolved
resolve --trails
resolve resolve --trail
session --trail
session session
graph --trail
graph graph
audit --trail
audits
imports --tsx
imports --jsx --jsx
generate
generate 0
generate 07
generate +7
generate 7x
generate 1001
generate 65537
generate 7 7"
}

fn project_is_counted(alloc: Global, row: &str) -> Result<bool, Fail> {
    let (words, line) = row.split_once('|').ok_or("words")?;
    let line = ended(alloc, line)?;
    Ok(comes_to(alloc, words, b"", 0, line.as_str())?)
}

#[test]
fn generated_projects_are_counted(rt: HostRuntime) -> Result<(), Fail> {
    for row in sizes().lines() {
        assert!(rt; project_is_counted(rt.alloc(), row)?, "at {row}");
    }
    Ok(())
}

#[test]
fn other_words_are_no_command(rt: HostRuntime) -> Result<(), Fail> {
    let document = bare_name().as_bytes();
    for words in no_commands().lines() {
        assert!(rt; comes_to(rt.alloc(), words, document, 2, "")?, "at {words}");
    }
    Ok(())
}
