// What a session keeps, as a plain text: a line for each outcome, the most recently used first, with its specifier
// and the paths of its questions.
use resolve_stack::Outcome;
use std::alloc::{AllocError, Global};

/// The line of an outcome.
pub(crate) fn line_of(
    alloc: Global,
    specifier: &str,
    outcome: &Outcome,
) -> Result<String, AllocError> {
    let mut line = String::from_str(alloc, specifier)?;
    for (question, _) in outcome.trail.iter() {
        push_word(&mut line, question.path())?;
    }
    Ok(line)
}

fn push_word(line: &mut String, word: &str) -> Result<(), AllocError> {
    line.push_str(" ")?;
    line.push_str(word)
}

fn push_line(lines: &mut String, line: &str) -> Result<(), AllocError> {
    lines.push_str(line)?;
    lines.push_str("\n")
}

fn specifier_of(line: &str) -> &str {
    match line.split_once(' ') {
        Some((specifier, _)) => specifier,
        None => line,
    }
}

/// Whether the outcome of a specifier is kept.
pub(crate) fn has(kept: &str, specifier: &str) -> bool {
    for line in kept.lines() {
        if specifier_of(line) == specifier {
            return true;
        }
    }
    false
}

/// What is kept once the outcome of a line is used: that one first, and then the others, up to a capacity.
pub(crate) fn renewed(
    alloc: Global,
    kept: &str,
    used: &str,
    capacity: usize,
) -> Result<String, AllocError> {
    let mut lines = String::new(alloc);
    push_line(&mut lines, used)?;
    let mut count: usize = 1;
    for line in kept.lines() {
        if count < capacity && specifier_of(line) != specifier_of(used) {
            push_line(&mut lines, line)?;
            count = count.wrapping_add(1);
        }
    }
    Ok(lines)
}

/// How many outcomes an edit drops.
pub(crate) fn count_touched(kept: &str, edited: &str) -> usize {
    let mut count: usize = 0;
    for line in kept.lines() {
        if is_touched(line, edited) {
            count = count.wrapping_add(1);
        }
    }
    count
}

/// What an edit leaves.
pub(crate) fn untouched(alloc: Global, kept: &str, edited: &str) -> Result<String, AllocError> {
    let mut lines = String::new(alloc);
    for line in kept.lines() {
        if !is_touched(line, edited) {
            push_line(&mut lines, line)?;
        }
    }
    Ok(lines)
}

// Whether one of the questions of a line is on the path of an edit or stands above it.
fn is_touched(line: &str, edited: &str) -> bool {
    let Some((_, paths)) = line.split_once(' ') else {
        return false;
    };
    for asked in paths.split_whitespace() {
        if bears_on(edited, asked) {
            return true;
        }
    }
    false
}

fn bears_on(edited: &str, asked: &str) -> bool {
    match edited.strip_prefix(asked) {
        None => false,
        Some(rest) => rest.is_empty() || rest.starts_with('/') || asked == "/",
    }
}

/// The specifiers of what is kept.
pub(crate) fn specifiers_of(alloc: Global, kept: &str) -> Result<String, AllocError> {
    let mut specifiers = String::new(alloc);
    for line in kept.lines() {
        push_word(&mut specifiers, specifier_of(line))?;
    }
    Ok(specifiers)
}
