// Requests through a mapping, each with the exact line of its answer or refusal.
use crate::node_search::rows_that_come;
use std::test::Fail;

// Settings and files, a request, and the line that it comes to.
fn rows() -> &'static str {
    r#""ts":{"base_url":"/w","paths":[["*",["p/*","q/*"]]]},"files":[{"path":"/w/a.js","text":""}]|"from":"/w/a.js","specifier":"x"|{"refused":{"inner":[{"kind":"NotFound","text":"p/x"},{"kind":"NotFound","text":"q/x"}],"kind":"TsFault","pattern":"*"}}
"ts":{"base_url":"/w","paths":[["@a/*",["lib/*"]]]},"files":[{"path":"/w/a.js","text":""}]|"from":"/w/a.js","specifier":"@a/x"|{"answer":{"real":"lib/x"},"found":null,"slug":"x"}
"ts":{"base_url":"/w","paths":[["q",["src/q.ts"]]]},"files":[{"path":"/w/a.js","text":""},{"path":"/w/src/q.ts","text":""}]|"from":"/w/a.js","specifier":"q"|{"answer":{"real":"/w/src/q.ts"},"found":{"file":"/w/src/q.ts","via":null},"slug":"q"}
"ts":{"base_url":"/w","paths":[["q",["src/index.ts"]]]},"files":[{"path":"/w/a.js","text":""}]|"from":"/w/a.js","specifier":"q"|{"answer":{"real":"/w/src/index.ts"},"found":null,"slug":null}
"ts":{"base_url":"/w","paths":[["q",["/x/q.js"]]]},"files":[]|"from":"/w/a.js","specifier":"q"|{"answer":{"real":"/x/q.js"},"found":null,"slug":"q"}
"ts":{"base_url":"/w","paths":[]},"files":[{"path":"/w/lib/b.ts","text":""}]|"from":"/w/p/a.js","specifier":"lib/b"|{"answer":{"real":"/w/lib/b.ts"},"found":{"file":"/w/lib/b.ts","via":null},"slug":null}
"ts":{"base_url":"/w","paths":[["*",["lib/*"]]]},"files":[{"path":"/w/a.js","text":""},{"path":"/w/b.ts","text":""}]|"from":"/w/a.js","specifier":"./b"|{"answer":{"real":"/w/b.ts"},"found":{"file":"/w/b.ts","via":null},"slug":null}
"ts":{"base_url":"/w","paths":[]},"files":[{"path":"/w/a.js","text":""},{"path":"/w/node_modules/q/index.js","text":""}]|"from":"/w/a.js","specifier":"q"|{"answer":{"real":"q"},"found":{"file":"/w/node_modules/q/index.js","via":null},"slug":null}
"ts":{"base_url":"/w","paths":[]},"files":[{"path":"/w/a.js","text":""}]|"from":"/w/a.js","specifier":"zz"|{"refused":{"kind":"NotFound","text":"zz"}}"#
}

#[test]
fn each_mapped_request_has_its_line(rt: HostRuntime) -> Result<(), Fail> {
    assert_eq!(rt; rows_that_come(rt.alloc(), rows())?, 9);
    Ok(())
}
