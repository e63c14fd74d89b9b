// Searches for Node's modules, each with the exact line of its answer or refusal.
use crate::documents::{comes_to, ended};
use std::alloc::{AllocError, Global};
use std::test::Fail;

// Settings and files, a request, and the line that it comes to.
fn rows() -> &'static str {
    r#""files":[{"path":"/w/a.js","text":""},{"path":"/w/b.ts","text":"","canonical":"/real/b.ts"}]|"from":"/w/a.js","specifier":"./b"|{"answer":{"real":"/real/b.ts"},"found":{"file":"/w/b.ts","via":null},"slug":null}
"files":[{"path":"/w/b/index.ts","text":""}]|"from":null,"specifier":"/w/b/"|{"answer":{"real":"/w/b/index.ts"},"found":{"file":"/w/b/index.ts","via":null},"slug":null}
"files":[{"path":"/w/p/a.js","text":""},{"path":"/node_modules/q/package.json","text":"{\"main\":\"lib\"}"},{"path":"/node_modules/q/lib.js","text":""}]|"from":"/w/p/a.js","specifier":"q"|{"answer":{"real":"/node_modules/q/lib.js"},"found":{"file":"/node_modules/q/lib.js","via":null},"slug":null}
"node_modules":false,"files":[{"path":"/w/a.js","text":""},{"path":"/w/node_modules/q/index.js","text":""}]|"from":"/w/a.js","specifier":"q"|{"refused":{"kind":"NotFound","text":"q"}}
"files":[{"path":"/w/a.js","text":""}]|"from":"index.js","specifier":"path"|{"answer":{"custom":"node:path"},"found":null,"slug":null}
"files":[{"path":"/w/a.js","text":""}]|"from":"/w/a.js","specifier":"node:any"|{"answer":{"custom":"node:any"},"found":null,"slug":null}
"alias":{"q":"./b"},"files":[{"path":"/w/a.js","text":""},{"path":"/w/b.ts","text":""}]|"from":"/w/a.js","specifier":"q"|{"answer":{"real":"/w/b.ts"},"found":{"file":"/w/b.ts","via":null},"slug":null}
"preserve_symlinks":true,"files":[{"path":"/node_modules/q/index.js","text":"","canonical":"/real/q.js"}]|"from":"q","specifier":"q"|{"answer":{"real":"../node_modules/q/index.js"},"found":{"file":"/node_modules/q/index.js","via":null},"slug":null}
"preserve_symlinks":true,"files":[{"path":"/w/a.js","text":""},{"path":"/w/b.ts","text":"","canonical":"/real/b.ts"}]|"from":"/w/a.js","specifier":"./b"|{"answer":{"real":"/w/b.ts"},"found":{"file":"/w/b.ts","via":null},"slug":null}
"files":[]|"from":null,"specifier":"./a"|{"refused":{"kind":"BaseNotAFile"}}
"files":[]|"from":{"custom":"node:fs"},"specifier":"a"|{"refused":{"kind":"BaseNotAFile"}}
"files":[{"path":"/w/a.js","text":""},{"path":"/w/q/package.json","text":"{"}]|"from":"/w/a.js","specifier":"./q"|{"refused":{"kind":"MalformedPackage","path":"/w/q/package.json"}}"#
}

fn document(alloc: Global, given: &str, request: &str) -> Result<String, AllocError> {
    let front = r#"{"cwd":"/w","target":"node","#;
    let middle = r#","requests":[{"#;
    format!(in alloc; "{front}{given}{middle}{request}{}", "}]}")
}

// How many rows come to their lines; the first that doesn't ends it.
pub(crate) fn rows_that_come(alloc: Global, rows: &str) -> Result<u8, Fail> {
    let mut tried = 0u8;
    for row in rows.lines() {
        let (given, asked) = row.split_once('|').ok_or("files")?;
        let (request, line) = asked.split_once('|').ok_or("a request")?;
        let document = document(alloc, given, request)?;
        let line = ended(alloc, line)?;
        if !comes_to(alloc, "resolve", document.as_bytes(), 0, line.as_str())? {
            return Ok(tried);
        }
        tried = tried.saturating_add(1);
    }
    Ok(tried)
}

#[test]
fn each_search_has_its_line(rt: HostRuntime) -> Result<(), Fail> {
    assert_eq!(rt; rows_that_come(rt.alloc(), rows())?, 12);
    Ok(())
}
