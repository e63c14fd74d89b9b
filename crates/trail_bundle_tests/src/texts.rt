// Texts of bundles, and the lines at which others are refused.
use std::alloc::{AllocError, Global};
use std::test::Fail;
use trail_bundle::{Bundle, DecodeError};

// A folder that is asked for, with the thirteen replies that decide its file.
fn folder() -> &'static str {
    "\
trail-bundle 1 1 13\n\
{\"from\":\"/w/a.js\",\"specifier\":\"./q\"}\n\
[\"file\",\"/w/a.js\",true]\n\
[\"file\",\"/w/q\",false]\n\
[\"file\",\"/w/q.js\",false]\n\
[\"file\",\"/w/q.jsx\",false]\n\
[\"file\",\"/w/q.node\",false]\n\
[\"file\",\"/w/q.ts\",false]\n\
[\"file\",\"/w/q.tsx\",false]\n\
[\"file\",\"/w/q/index.js\",true]\n\
[\"canon\",\"/w/q/index.js\",\"/w/q/index.js\"]\n\
[\"file\",\"/w/q/index.ts\",false]\n\
[\"file\",\"/w/q/index.tsx\",false]\n\
[\"file\",\"/w/q/package.json\",true]\n\
[\"read\",\"/w/q/package.json\",\"7b7d\"]\n"
}

// A text with `|` for each line end, and the line at which it is refused, or 0 where it is that of a bundle.
fn rows() -> &'static str {
    "\
# counts\n\
trail-bundle 1 0 0| 0\n\
trail-bundle 1 0 0 1\n\
trail-bundle 2 0 0| 1\n\
trail-bundle 1 0 00| 1\n\
trail-bundle 1 +0 0| 1\n\
trail-bundle 1 0 0|| 2\n\
trail-bundle 1 99999999999999999999999 0| 2\n\
trail-bundle 1 0 99999999999999999999999| 2\n\
# requests\n\
trail-bundle 1 1 0|{\"from\":null,\"specifier\":\"a\"}| 0\n\
trail-bundle 1 1 0|{\"from\":{\"custom\":\"c\"},\"specifier\":\"a\"}| 0\n\
trail-bundle 1 1 0|{\"from\": null,\"specifier\":\"a\"}| 2\n\
trail-bundle 1 1 0|{\"specifier\":\"a\",\"from\":null}| 2\n\
trail-bundle 1 1 0|{\"from\":null,\"specifier\":\"a\",\"to\":1}| 2\n\
trail-bundle 1 1 0|{\"from\":null,\"specifier\":\"\\u0061\"}| 2\n\
# replies\n\
trail-bundle 1 0 1|[\"read\",\"/a\",null]| 0\n\
trail-bundle 1 0 1|[\"read\",\"/a\",\"\"]| 0\n\
trail-bundle 1 0 1|[\"read\",\"/a\",\"7B\"]| 2\n\
trail-bundle 1 0 1|[\"read\",\"/a\",\"7\"]| 2\n\
trail-bundle 1 0 1|[\"canon\",\"/a\",null]| 0\n\
trail-bundle 1 0 1|[\"canon\",\"/a\",true]| 2\n\
trail-bundle 1 0 1|[\"link\",\"/a\",true]| 2\n\
trail-bundle 1 0 1|[\"file\",\"/a\",true,true]| 2\n\
# their order: five questions on one path, and the bytes of paths\n\
trail-bundle 1 0 5|[\"file\",\"/a\",true]|[\"dir\",\"/a\",false]|[\"exists\",\"/a\",true]\
|[\"read\",\"/a\",\"00ff\"]|[\"canon\",\"/a\",\"/b\"]| 0\n\
trail-bundle 1 0 2|[\"dir\",\"/a\",true]|[\"file\",\"/a\",true]| 3\n\
trail-bundle 1 0 2|[\"file\",\"/a\",true]|[\"file\",\"/a\",true]| 3\n\
trail-bundle 1 0 2|[\"file\",\"/B\",true]|[\"file\",\"/a\",true]| 0\n\
trail-bundle 1 0 2|[\"file\",\"/a\",true]|[\"file\",\"/B\",true]| 3\n\
trail-bundle 1 0 2|[\"file\",\"/\\t\",true]|[\"file\",\"/ \",true]| 0"
}

// The line at which a text is refused, and 0 where it is a bundle's.
fn refused_at(alloc: Global, text: &str) -> Result<usize, AllocError> {
    match Bundle::decode(alloc, text) {
        Ok(_) => Ok(0),
        Err(DecodeError::NotABundle { line }) => Ok(line),
        Err(DecodeError::NoMemory) => Err(AllocError),
    }
}

// The line at which a row's text is refused.
fn row_refused_at(alloc: Global, row: &str) -> Result<usize, AllocError> {
    let text = row.replace(alloc, '|', "\n")?;
    refused_at(alloc, text.as_str())
}

// The line at which a text is refused whose line of this number, from 0, has one more letter.
fn damaged_at(alloc: Global, text: &str, number: usize) -> Result<usize, AllocError> {
    let mut damaged = String::new(alloc);
    for (at, line) in text.lines().enumerate() {
        damaged.push_str(line)?;
        damaged.push_str(if at == number { "x\n" } else { "\n" })?;
    }
    refused_at(alloc, damaged.as_str())
}

#[test]
fn a_text_is_written_again(rt: HostRuntime) -> Result<(), Fail> {
    let bundle = Bundle::decode(rt.alloc(), folder())?;
    assert_eq!(rt; bundle.requests().len(), 1);
    assert_eq!(rt; bundle.questions(), 13);
    assert_eq!(rt; bundle.encode(rt.alloc())?.as_str(), folder());
    Ok(())
}

#[test]
fn a_text_is_refused_where_it_is_cut(rt: HostRuntime) -> Result<(), Fail> {
    let mut front = String::new(rt.alloc());
    for c in folder().chars() {
        let line = front.as_str().split('\n').count();
        assert_eq!(rt; refused_at(rt.alloc(), front.as_str())?, line);
        front.push(c)?;
    }
    Ok(())
}

#[test]
fn a_damaged_line_is_told(rt: HostRuntime) -> Result<(), Fail> {
    for number in 0..15 {
        assert_eq!(rt; damaged_at(rt.alloc(), folder(), number)?, number + 1);
    }
    assert_eq!(rt; damaged_at(rt.alloc(), folder(), 15)?, 0);
    Ok(())
}

#[test]
fn texts_are_refused_at_lines(rt: HostRuntime) -> Result<(), Fail> {
    for row in rows().lines() {
        if !row.starts_with('#') {
            let (text, line) = row.rsplit_once(' ').ok_or("no row")?;
            assert_eq!(rt; row_refused_at(rt.alloc(), text)?, line.parse()?, "{row}");
        }
    }
    Ok(())
}
