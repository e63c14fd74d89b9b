// Documents that are bundled, and replay documents, with what is written for each.
use crate::documents::documents_that_come;
use std::test::Fail;

// What a bundle without replies is, and what is against a document.
fn bundles() -> &'static str {
    r#"# no request, and one that asks nothing
{"cwd":"/w","files":[],"requests":[]}|trail-bundle 1 0 0
# the causes are those of any document
[|refused: not-json
{"cwd":"/w","files":[]}|refused: bad-field requests
{"cwd":"w","files":[{"path":"a","text":""}],"requests":[]}|refused: bad-tree "a"
{"cwd":"w","files":[],"requests":[]}|refused: bad-project SettingsFault cwd"#
}

// What is written for a replay document.
fn replays() -> &'static str {
    r#"# the bytes are no JSON
[|refused: not-json
# a value that is no object
1|refused: bad-field cwd
# the settings go first, and files don't count
{"bundle":1}|refused: bad-field cwd
{"cwd":"/w","lock":1,"bundle":1}|refused: bad-field lock
{"cwd":"/w","files":1}|refused: bad-field bundle
{"cwd":"/w","bundle":null}|refused: bad-field bundle
# then the bundle
{"cwd":"w","bundle":""}|refused: bad-bundle 1
{"cwd":"/w","bundle":"trail-bundle 1 0 0"}|refused: bad-bundle 1
{"cwd":"/w","bundle":"trail-bundle 1 1 0\n"}|refused: bad-bundle 2
{"cwd":"/w","bundle":"trail-bundle 1 0 0\n\n"}|refused: bad-bundle 2
# then the project
{"cwd":"w","bundle":"trail-bundle 1 0 0\n"}|refused: bad-project SettingsFault cwd
{"cwd":"/w","lock":"","bundle":"trail-bundle 1 0 0\n"}|refused: bad-project LockParser
# and last a reply that is missing
{"cwd":"/w","target":"node","bundle":"trail-bundle 1 1 0\n{\"from\":\"/w/a.js\",\"specifier\":\"./q\"}\n"}|refused: not-recorded 0 ["file","/w/a.js"]
{"cwd":"/w","target":"node","bundle":"trail-bundle 1 2 1\n{\"from\":null,\"specifier\":\"./q\"}\n{\"from\":\"/w/a.js\",\"specifier\":\"./q\"}\n[\"file\",\"/w/a.js\",true]\n"}|refused: not-recorded 1 ["file","/w/q.js"]
# a verdict
{"cwd":"/w","target":"node","bundle":"trail-bundle 1 1 0\n{\"from\":null,\"specifier\":\"./q\"}\n"}|{"refused":{"kind":"BaseNotAFile"}}
{"cwd":"/w","target":"node","bundle":"trail-bundle 1 1 3\n{\"from\":\"/w/a.js\",\"specifier\":\"./q\"}\n[\"file\",\"/w/a.js\",true]\n[\"file\",\"/w/q.js\",true]\n[\"canon\",\"/w/q.js\",\"/w/q.js\"]\n"}|{"answer":{"real":"/w/q.js"},"found":{"file":"/w/q.js","via":null},"slug":null}
# no request
{"cwd":"/w","bundle":"trail-bundle 1 0 0\n"}|"#
}

#[test]
fn a_document_is_bundled(rt: HostRuntime) -> Result<(), Fail> {
    assert_eq!(rt; documents_that_come(rt.alloc(), "bundle", bundles())?, 5);
    Ok(())
}

#[test]
fn a_bundle_is_replayed(rt: HostRuntime) -> Result<(), Fail> {
    assert_eq!(rt; documents_that_come(rt.alloc(), "replay", replays())?, 17);
    Ok(())
}
