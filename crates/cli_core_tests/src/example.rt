// A document with one request, and the line that is written for it.
use cli_core::{OutcomeForm, report_for};
use std::test::Fail;

#[test]
fn a_request_has_its_line(rt: HostRuntime) -> Result<(), Fail> {
    let document = r#"{"cwd": "/w", "target": "node",
        "files": [{"path": "/w/a.js", "text": ""}, {"path": "/w/b.js", "text": ""}],
        "requests": [{"from": "/w/a.js", "specifier": "./b"}]}"#;
    let line = r#"{"answer":{"real":"/w/b.js"},"found":{"file":"/w/b.js","via":null},"slug":null}"#;
    let report = report_for(rt.alloc(), document.as_bytes(), OutcomeForm::Line)?;
    assert_eq!(rt; report.trim_end(), line);
    Ok(())
}
