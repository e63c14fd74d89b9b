// Graph documents of no step or one, and the line that is written for each.
use crate::documents::documents_that_come;
use std::test::Fail;

// What is against a graph document.
fn refused() -> &'static str {
    r#"# the bytes are no JSON
|refused: not-json
# the fields that all documents have go first
{"entries":1,"capacity":0,"steps":1}|refused: bad-field cwd
{"cwd":"/w","entries":1,"capacity":0,"steps":1}|refused: bad-field files
# the entries have no default
{"cwd":"/w","files":[],"capacity":0,"steps":1}|refused: bad-field entries
# they are texts in a list
{"cwd":"/w","files":[],"entries":"/a","capacity":0,"steps":1}|refused: bad-field entries
{"cwd":"/w","files":[],"entries":["/a",1],"capacity":1,"steps":[]}|refused: bad-field entries
# each a clean absolute path other than `/`
{"cwd":"/w","files":[],"entries":["/a","/"],"capacity":0,"steps":1}|refused: bad-field entries
{"cwd":"/w","files":[],"entries":["a"],"capacity":1,"steps":[]}|refused: bad-field entries
{"cwd":"/w","files":[],"entries":["/w/../a"],"capacity":1,"steps":[]}|refused: bad-field entries
{"cwd":"/w","files":[],"entries":[""],"capacity":1,"steps":[]}|refused: bad-field entries
# then the capacity and the steps
{"cwd":"/w","files":[],"entries":[],"capacity":0,"steps":1}|refused: bad-field capacity
{"cwd":"/w","files":[],"entries":[],"capacity":65537,"steps":[]}|refused: bad-field capacity
{"cwd":"/w","files":[],"entries":[],"capacity":1}|refused: bad-field steps
# the graph is asked for by null
{"cwd":"/w","files":[],"entries":[],"capacity":1,"steps":[{"graph":true}]}|refused: bad-field steps
{"cwd":"/w","files":[],"entries":[],"capacity":1,"steps":[{"graph":null,"put":null}]}|refused: bad-field steps
{"cwd":"/w","files":[],"entries":[],"capacity":1,"steps":[{"graph":null},{"ask":{"from":"/a","specifier":"b"}}]}|refused: bad-field steps
{"cwd":"/w","files":[],"entries":[],"capacity":1,"steps":[{}]}|refused: bad-field steps
# what tells imports is one of two
{"cwd":"/w","files":[],"entries":[],"capacity":1,"steps":1,"scanner":1}|refused: bad-field steps
{"cwd":"/w","files":[],"entries":[],"capacity":1,"steps":[],"scanner":null}|refused: bad-field scanner
{"cwd":"/w","files":[{"path":"a","text":""}],"entries":[],"capacity":1,"steps":[],"scanner":"ES"}|refused: bad-field scanner
# then the tree, and last the project
{"cwd":"w","files":[{"path":"a","text":""}],"entries":[],"capacity":1,"steps":[]}|refused: bad-tree "a"
{"cwd":"w","files":[],"entries":[],"capacity":1,"steps":[]}|refused: bad-project SettingsFault cwd"#
}

// The line of a step.
fn steps() -> &'static str {
    r#"# no step
{"cwd":"/w","files":[],"entries":["/a"],"capacity":65536,"steps":[]}|
# no entry
{"cwd":"/w","files":[],"entries":[],"capacity":1,"steps":[{"graph":null}]}|{"missing":[],"nodes":[]}
# entries that are no files, a folder among them, with repeats
{"cwd":"/w","files":[{"path":"/w/b","text":""}],"entries":["/a","/w","/a"],"capacity":1,"steps":[{"graph":null}]}|{"missing":["/a","/w","/a"],"nodes":[]}
# a file that imports nothing
{"cwd":"/w","files":[{"path":"/b","text":""}],"entries":["/a","/b","/b"],"capacity":1,"steps":[{"graph":null}]}|{"missing":["/a"],"nodes":[{"edges":[],"file":"/b"}]}
# one that imports itself
{"cwd":"/w","files":[{"path":"/w/b.js","text":"import './b'"}],"entries":["/w/b.js"],"capacity":1,"steps":[{"graph":null}]}|{"missing":[],"nodes":[{"edges":[{"specifier":"./b","verdict":{"answer":{"real":"/w/b.js"},"found":{"file":"/w/b.js","via":null},"slug":null}}],"file":"/w/b.js"}]}
# an answer without a file isn't followed
{"cwd":"/w","target":"node","files":[{"path":"/w/b.js","text":"import 'fs'"}],"entries":["/w/b.js"],"capacity":1,"steps":[{"graph":null}]}|{"missing":[],"nodes":[{"edges":[{"specifier":"fs","verdict":{"answer":{"custom":"node:fs"},"found":null,"slug":null}}],"file":"/w/b.js"}]}
# by lines or by tokens
{"cwd":"/w","target":"node","files":[{"path":"/w/b.js","text":"a; import 'fs'"}],"entries":["/w/b.js"],"capacity":1,"steps":[{"graph":null}],"scanner":"lines"}|{"missing":[],"nodes":[{"edges":[],"file":"/w/b.js"}]}
{"cwd":"/w","target":"node","files":[{"path":"/w/b.js","text":"a; import 'fs'"}],"entries":["/w/b.js"],"capacity":1,"steps":[{"graph":null}],"scanner":"es"}|{"missing":[],"nodes":[{"edges":[{"specifier":"fs","verdict":{"answer":{"custom":"node:fs"},"found":null,"slug":null}}],"file":"/w/b.js"}]}
# a put and a removal
{"cwd":"/w","files":[],"entries":[],"capacity":1,"steps":[{"put":{"path":"/w/a.js","hex":"0a"}}]}|{"dropped":0}
{"cwd":"/w","files":[],"entries":[],"capacity":1,"steps":[{"put":{"path":"a","text":""}}]}|{"refused":{"kind":"Unclean","path":"a"}}
{"cwd":"/w","files":[{"path":"/w/a.js","text":""}],"entries":[],"capacity":1,"steps":[{"put":{"path":"/w","text":""}}]}|{"refused":{"kind":"Conflict","other":"/w/a.js"}}
{"cwd":"/w","files":[{"path":"/w/a.js","text":""}],"entries":[],"capacity":1,"steps":[{"remove":"/w/a.js"}]}|{"dropped":0}
{"cwd":"/w","files":[],"entries":[],"capacity":1,"steps":[{"remove":"/w/a.js"}]}|{"dropped":null}"#
}

#[test]
fn each_cause_against_a_graph_has_its_line(rt: HostRuntime) -> Result<(), Fail> {
    assert_eq!(rt; documents_that_come(rt.alloc(), "graph", refused())?, 22);
    Ok(())
}

#[test]
fn each_step_over_a_graph_has_its_line(rt: HostRuntime) -> Result<(), Fail> {
    assert_eq!(rt; documents_that_come(rt.alloc(), "graph", steps())?, 13);
    Ok(())
}
