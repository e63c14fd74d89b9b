// Session documents of no step or one, and the line that is written for each.
use crate::documents::documents_that_come;
use std::test::Fail;

// What is against a session document.
fn refused() -> &'static str {
    r#"# the bytes are no JSON
|refused: not-json
{"cwd":"/w","files":[],"capacity":1,"steps":[]}]|refused: not-json
# a value that is no object
[]|refused: bad-field cwd
# the fields that all documents have go first
{"capacity":0,"steps":1}|refused: bad-field cwd
{"cwd":"/w","lock":1,"capacity":0,"steps":1}|refused: bad-field lock
{"cwd":"/w","capacity":0,"steps":1}|refused: bad-field files
# the capacity has no default
{"cwd":"/w","files":[],"steps":1}|refused: bad-field capacity
# it is a number from 1 to 65,536
{"cwd":"/w","files":[],"capacity":0,"steps":1}|refused: bad-field capacity
{"cwd":"/w","files":[],"capacity":65537,"steps":[]}|refused: bad-field capacity
{"cwd":"/w","files":[],"capacity":-1,"steps":[]}|refused: bad-field capacity
{"cwd":"/w","files":[],"capacity":1.5,"steps":[]}|refused: bad-field capacity
{"cwd":"/w","files":[],"capacity":"2","steps":[]}|refused: bad-field capacity
{"cwd":"/w","files":[],"capacity":null,"steps":[]}|refused: bad-field capacity
# no steps
{"cwd":"/w","files":[],"capacity":1}|refused: bad-field steps
# requests in their place
{"cwd":"/w","files":[],"capacity":1,"requests":[]}|refused: bad-field steps
# no list
{"cwd":"/w","files":[],"capacity":1,"steps":null}|refused: bad-field steps
{"cwd":"/w","files":[],"capacity":1,"steps":{"remove":"/a"}}|refused: bad-field steps
# a step without one of the three fields
{"cwd":"/w","files":[],"capacity":1,"steps":[{}]}|refused: bad-field steps
{"cwd":"/w","files":[],"capacity":1,"steps":[{"remove":"/a"},"/a"]}|refused: bad-field steps
# with two of them
{"cwd":"/w","files":[],"capacity":1,"steps":[{"ask":{"from":null,"specifier":"a"},"put":{"path":"/a","text":""}}]}|refused: bad-field steps
{"cwd":"/w","files":[],"capacity":1,"steps":[{"ask":{"from":null,"specifier":"a"},"remove":"/a"}]}|refused: bad-field steps
{"cwd":"/w","files":[],"capacity":1,"steps":[{"put":null,"remove":"/a"}]}|refused: bad-field steps
# a request without a specifier
{"cwd":"/w","files":[],"capacity":1,"steps":[{"ask":{"from":null}}]}|refused: bad-field steps
# a file with two contents, with none, and with one that is no hex
{"cwd":"/w","files":[],"capacity":1,"steps":[{"put":{"path":"/a","text":"","hex":""}}]}|refused: bad-field steps
{"cwd":"/w","files":[],"capacity":1,"steps":[{"put":{"path":"/a"}}]}|refused: bad-field steps
{"cwd":"/w","files":[],"capacity":1,"steps":[{"put":{"path":"/a","hex":"0A"}}]}|refused: bad-field steps
# a path that is no text
{"cwd":"/w","files":[],"capacity":1,"steps":[{"remove":1}]}|refused: bad-field steps
# then the tree
{"cwd":"w","files":[{"path":"a","text":""}],"capacity":1,"steps":[]}|refused: bad-tree "a"
{"cwd":"w","files":[{"path":"/a/b","text":""},{"path":"/a","text":""}],"capacity":1,"steps":[]}|refused: bad-tree "/a" "/a/b"
# and last the project
{"cwd":"w","files":[],"capacity":1,"steps":[{"remove":"/a"}]}|refused: bad-project SettingsFault cwd
{"cwd":"/w","lock":"","files":[],"capacity":1,"steps":[]}|refused: bad-project LockParser"#
}

// The line of a step.
fn steps() -> &'static str {
    r#"# no step
{"cwd":"/w","files":[],"capacity":65536,"steps":[]}|
# other fields are passed over
{"cwd":"/w","files":[],"capacity":1,"steps":[],"requests":1}|
# an ask
{"cwd":"/w","target":"node","files":[{"path":"/w/a.js","text":""},{"path":"/w/b.ts","text":""}],"capacity":1,"steps":[{"ask":{"from":"/w/a.js","specifier":"./b"}}]}|{"answer":{"real":"/w/b.ts"},"found":{"file":"/w/b.ts","via":null},"slug":null}
{"cwd":"/w","target":"node","files":[],"capacity":1,"steps":[{"ask":{"from":null,"specifier":"./b"}}]}|{"refused":{"kind":"BaseNotAFile"}}
# a put
{"cwd":"/w","files":[],"capacity":1,"steps":[{"put":{"path":"/w/a.js","hex":"0a"}}]}|{"dropped":0}
# on a path that isn't clean, and with such a canonical name
{"cwd":"/w","files":[],"capacity":1,"steps":[{"put":{"path":"a","text":""}}]}|{"refused":{"kind":"Unclean","path":"a"}}
{"cwd":"/w","files":[],"capacity":1,"steps":[{"put":{"path":"/w/a.js","text":"","canonical":"/w/b/"}}]}|{"refused":{"kind":"Unclean","path":"/w/a.js"}}
# below a file, and above one
{"cwd":"/w","files":[{"path":"/w/a.js","text":""}],"capacity":1,"steps":[{"put":{"path":"/w/a.js/b","text":""}}]}|{"refused":{"kind":"Conflict","other":"/w/a.js"}}
{"cwd":"/w","files":[{"path":"/w/a.js","text":""}],"capacity":1,"steps":[{"put":{"path":"/w","text":""}}]}|{"refused":{"kind":"Conflict","other":"/w/a.js"}}
# a removal, of a file and of a folder
{"cwd":"/w","files":[{"path":"/w/a.js","text":""}],"capacity":1,"steps":[{"remove":"/w/a.js"}]}|{"dropped":0}
{"cwd":"/w","files":[{"path":"/w/a.js","text":""}],"capacity":1,"steps":[{"remove":"/w"}]}|{"dropped":null}"#
}

#[test]
fn each_cause_against_a_session_has_its_line(rt: HostRuntime) -> Result<(), Fail> {
    assert_eq!(rt; documents_that_come(rt.alloc(), "session", refused())?, 31);
    Ok(())
}

#[test]
fn each_step_has_its_line(rt: HostRuntime) -> Result<(), Fail> {
    assert_eq!(rt; documents_that_come(rt.alloc(), "session", steps())?, 11);
    Ok(())
}
