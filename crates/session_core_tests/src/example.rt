// A session of two outcomes: what each step tells, and what is kept after it.
use crate::project::{importer, keys_are, session_of_two};
use resolve_stack::{FileName, Outcome, Verdict};
use session_core::Session;
use std::alloc::{AllocError, Global};
use std::process::Abort;
use std::test::Fail;
use tree_core::PutError;

// Steps of one session. An ask tells the file that it found, and `asked` where it put a question; an edit tells
// how many outcomes are dropped. Behind it stand the specifiers that are kept.
fn steps() -> &'static str {
    r#"# the tree is asked
ask foo | /w/lib/foo/index.js asked | foo
# and not again
ask foo | /w/lib/foo/index.js | foo
# no request looked for this file
put /w/beside.js | 0 | foo
# one did for this
put /w/lib/foo/index.ts | 1 |
ask foo | /w/lib/foo/index.ts asked | foo
remove /w/lib/foo/index.ts | 1 |
# no such file
remove /w/lib/foo/index.ts | none |
# of three outcomes the one that was not used for longest goes
ask foo | /w/lib/foo/index.js asked | foo
ask ./a.js | /w/a.js asked | ./a.js foo
ask foo | /w/lib/foo/index.js | foo ./a.js
ask ./b.js | nothing asked | ./b.js foo
# another file is in the way
put /w/a.js/b | /w/a.js | ./b.js foo"#
}

fn told(
    alloc: Global,
    session: &mut Session<'_>,
    importer: &FileName,
    step: &str,
) -> Result<String, AllocError> {
    let Some((word, name)) = step.split_once(' ') else {
        return String::from_str(alloc, "no step");
    };
    match word {
        "ask" => told_of_ask(alloc, session, importer, name),
        "put" => told_of_put(alloc, session, name),
        _ => told_of_removal(alloc, session, name),
    }
}

fn told_of_ask(
    alloc: Global,
    session: &mut Session<'_>,
    importer: &FileName,
    specifier: &str,
) -> Result<String, AllocError> {
    let before = session.questions();
    let mut told = found_by(alloc, session, importer, specifier)?;
    if session.questions() != before {
        told.push_str(" asked")?;
    }
    Ok(told)
}

fn found_by(
    alloc: Global,
    session: &mut Session<'_>,
    importer: &FileName,
    specifier: &str,
) -> Result<String, AllocError> {
    String::from_str(alloc, found(session.ask(importer, specifier)?))
}

// The file that an outcome found.
fn found(outcome: &Outcome) -> &str {
    match &outcome.verdict {
        Verdict::Answered(answer) => match &answer.found {
            Some(found) => found.file.as_str(),
            None => "nothing",
        },
        Verdict::Refused(_) => "nothing",
    }
}

fn told_of_put(alloc: Global, session: &mut Session<'_>, path: &str) -> Result<String, AllocError> {
    match session.put(path, b"", path) {
        Ok(dropped) => dropped.to_string(alloc),
        Err(error) => told_of_refusal(alloc, &error),
    }
}

// The file that is in the way.
fn told_of_refusal(alloc: Global, error: &PutError) -> Result<String, AllocError> {
    match error {
        PutError::Conflict { other } => String::from_str(alloc, other.as_str()),
        PutError::Unclean => String::from_str(alloc, "unclean"),
        PutError::NoMemory => Err(AllocError),
    }
}

fn told_of_removal(
    alloc: Global,
    session: &mut Session<'_>,
    path: &str,
) -> Result<String, AllocError> {
    match session.remove(path) {
        Some(dropped) => dropped.to_string(alloc),
        None => String::from_str(alloc, "none"),
    }
}

// Whether a step tells what its row has, and leaves what stands behind that.
fn comes(
    alloc: Global,
    session: &mut Session<'_>,
    importer: &FileName,
    row: &str,
) -> Result<bool, AllocError> {
    let Some((step, rest)) = row.split_once(" | ") else {
        return Ok(false);
    };
    let Some((wanted, kept)) = rest.split_once(" |") else {
        return Ok(false);
    };
    let told = told(alloc, session, importer, step)?;
    Ok(told.as_str() == wanted && keys_are(session.keys(), kept))
}

fn steps_come(
    rt: &impl Abort,
    alloc: Global,
    session: &mut Session<'_>,
    importer: &FileName,
) -> Result<(), AllocError> {
    for row in steps().lines() {
        if !row.starts_with('#') {
            assert!(rt; comes(alloc, session, importer, row)?, "at {row}");
        }
    }
    Ok(())
}

#[test]
fn each_step_tells_what_it_does(rt: HostRuntime) -> Result<(), Fail> {
    let importer = importer(rt.alloc())?;
    let mut session = session_of_two(rt.alloc())?;
    steps_come(&rt, rt.alloc(), &mut session, &importer)?;
    Ok(())
}
