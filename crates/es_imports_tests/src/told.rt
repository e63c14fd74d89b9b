// What a scan tells, as a text.
use es_imports::{Import, ScanError, scan_imports, scan_imports_jsx};
use std::alloc::{AllocError, Global};
use std::process::Abort;
use std::test::Fail;
use sugar_path::List;

// What a scan of the text tells.
pub(crate) fn told(alloc: Global, text: &str) -> Result<String, AllocError> {
    lines_of(alloc, scan_imports(alloc, text))
}

// What a scan of the text tells where elements are read.
pub(crate) fn told_jsx(alloc: Global, text: &str) -> Result<String, AllocError> {
    lines_of(alloc, scan_imports_jsx(alloc, text))
}

// Each import by its kind, its place and its specifier, in order, or the error.
fn lines_of(alloc: Global, told: Result<List<Import>, ScanError>) -> Result<String, AllocError> {
    let imports = match told {
        Ok(imports) => imports,
        Err(error) => return format!(in alloc; "{error:?}"),
    };
    let mut lines = String::new(alloc);
    for import in imports.as_slice() {
        let form = if import.is_type { " type" } else { "" };
        let specifier = import.specifier.as_str();
        let line = format!(in alloc; "{:?}{form} {} {specifier}|", import.kind, import.place)?;
        lines.push_str(line.as_str())?;
    }
    Ok(lines)
}

// A line with its marks replaced: `⏎` stands for a line feed, `⇣` and `⇟` for the other line ends of Unicode, `␀` for
// the character 0.
pub(crate) fn unmarked(alloc: Global, line: &str) -> Result<String, AllocError> {
    let mut text = String::new(alloc);
    for c in line.chars() {
        match c {
            '⏎' => text.push('\n')?,
            '⇣' => text.push('\u{2028}')?,
            '⇟' => text.push('\u{2029}')?,
            '␀' => text.push('\0')?,
            c => text.push(c)?,
        }
    }
    Ok(text)
}

// Each line's text tells what stands behind its arrow.
pub(crate) fn agrees(rt: &impl Abort, alloc: Global, lines: &str) -> Result<(), Fail> {
    for line in lines.split('\n') {
        let line = unmarked(alloc, line)?;
        if let Some((text, wanted)) = line.as_str().split_once(" ⇒ ") {
            assert_eq!(rt; told(alloc, text)?.as_str(), wanted, "{text}");
        }
    }
    Ok(())
}
