// What is told of words: help, by its first line, or what is wrong with them.
use command_help::{topic_of, wrong_words};
use std::alloc::{AllocError, Global};
use std::test::Fail;

// Words and the first line of what is told of them.
fn rows() -> &'static str {
    "\
help: yuzkhatvo: which file a specifier means, asked from an importer, with the questions that decided it\n\
--help: yuzkhatvo: which file a specifier means, asked from an importer, with the questions that decided it\n\
--version: yuzkhatvo 0.1.0\n\
help resolve: resolve [--trail | --explain]\n\
resolve --help: resolve [--trail | --explain]\n\
help session: session\n\
help graph: graph\n\
help audit: audit\n\
help bundle: bundle\n\
help replay: replay\n\
help imports: imports [--jsx]\n\
help generate: generate N\n\
disk --help: disk [--trail | --explain | --bundle] CWD TARGET IMPORTER SPECIFIER..\n\
reslove: no such command; did you mean this? resolve [--trail | --explain] < DOCUMENT\n\
resolv x y: no such command; did you mean this? resolve [--trail | --explain] < DOCUMENT\n\
Session: no such command; did you mean this? session < DOCUMENT\n\
grph: no such command; did you mean this? graph < DOCUMENT\n\
audits: no such command; did you mean this? audit < DOCUMENT\n\
bundel: no such command; did you mean this? bundle < DOCUMENT\n\
reply: no such command; did you mean this? replay < DOCUMENT\n\
import: no such command; did you mean this? imports [--jsx] < TEXT\n\
imports --tsx: usage: imports [--jsx] < TEXT\n\
generat 5: no such command; did you mean this? generate N, a number from 1 to 1000\n\
help dsik: no such command; did you mean this? disk [--trail | --explain | --bundle] CWD TARGET IMPORTER SPECIFIER.., where TARGET is node or browser\n\
find: no such command; `help` lists the commands\n\
--verbose: no such command; `help` lists the commands\n\
resolve --trails: usage: resolve [--trail | --explain] < DOCUMENT\n\
generate 0: usage: generate N, a number from 1 to 1000\n\
disk /w deno /w/a.js ./b: usage: disk [--trail | --explain | --bundle] CWD TARGET IMPORTER SPECIFIER.., where TARGET is node or browser\n\
help resolve now: usage: resolve [--trail | --explain] < DOCUMENT"
}

fn words_in(alloc: Global, text: &str) -> Result<Vec<String>, AllocError> {
    let mut words = Vec::new(alloc);
    for word in text.split(' ') {
        words.push(String::from_str(alloc, word)?)?;
    }
    Ok(words)
}

// The first line of what is told of words.
fn told(alloc: Global, words: &[String]) -> Result<String, AllocError> {
    match topic_of(words) {
        Some(topic) => String::from_str(alloc, topic.text().lines().next().unwrap_or("")),
        None => wrong_words(alloc, words)?.line(alloc),
    }
}

#[test]
fn words_are_told(rt: HostRuntime) -> Result<(), Fail> {
    for row in rows().lines() {
        let (words, line) = row.split_once(": ").ok_or("no line")?;
        let told = told(rt.alloc(), words_in(rt.alloc(), words)?.as_slice())?;
        assert_eq!(rt; told.as_str(), line, "{words}");
    }
    Ok(())
}

#[test]
fn no_words_ask_about_the_program(rt: HostRuntime) -> Result<(), Fail> {
    let told = told(rt.alloc(), &[])?;
    assert!(rt; told.starts_with("yuzkhatvo: "));
    Ok(())
}
