// What lines import: examples by hand, as a reader of the rule would write them.
use import_graph::{LineScan, Scan, scan_lines};
use std::alloc::{AllocError, Global};
use std::test::Fail;
use sugar_path::Text;

// A line, and behind the last ` -> ` what it imports, in brackets.
fn rows() -> &'static str {
    "\
import \"./b\" -> [./b]\n\
import './b' -> [./b]\n\
import x from 'foo' -> [foo]\n\
import a from \"x'y'\" -> [x'y']\n\
import \"\" -> []\n\
import { a, b } from \"@scope/name/deep\"; -> [@scope/name/deep]\n\
export { y } from \"./a.js\" -> [./a.js]\n\
export * from './all' -> [./all]\n\
} from \"./long\"; -> [./long]\n\
\x20\x20import \"./spaces\" -> [./spaces]\n\
\t \timport \"./tabs\" -> [./tabs]\n\
import \"./first\"; import \"./last\" -> [./last]\n\
import \"./b\"; // it's 'so' -> [./b]\n\
import './b'; // one \" more -> [./b]\n\
export const name = \"told\" -> [told]\n\
import(\"x\") -> none\n\
import\t\"x\" -> none\n\
const a = import \"b\" -> none\n\
import x from foo -> none\n\
import \"x -> none\n\
}from \"./b\" -> none\n\
// import \"./b\" -> none\n\
\x0bimport \"./b\" -> none\n\
imports \"./b\" -> none"
}

// The texts that are imported, each in brackets.
fn told(alloc: Global, texts: &[Text]) -> Result<String, AllocError> {
    if texts.is_empty() {
        return String::from_str(alloc, "none");
    }
    let mut told = String::new(alloc);
    for text in texts {
        told.push('[')?;
        told.push_str(text.as_str())?;
        told.push(']')?;
    }
    Ok(told)
}

// What bytes import, as told.
fn imported(alloc: Global, bytes: &[u8]) -> Result<String, AllocError> {
    told(alloc, scan_lines(alloc, bytes)?.as_slice())
}

// What bytes import by any scan, as told.
fn scanned<S: Scan>(alloc: Global, scan: &S, bytes: &[u8]) -> Result<String, AllocError> {
    told(alloc, scan.scan(alloc, bytes)?.as_slice())
}

#[test]
fn a_line_imports(rt: HostRuntime) -> Result<(), Fail> {
    for row in rows().lines() {
        let (line, wanted) = row.rsplit_once(" -> ").ok_or("no row")?;
        assert_eq!(rt;
            imported(rt.alloc(), line.as_bytes())?.as_str(),
            wanted,
            "{line}"
        );
    }
    Ok(())
}

#[test]
fn bytes_that_are_no_text(rt: HostRuntime) -> Result<(), Fail> {
    let rows = [
        (b"import \"./\xff\"".as_slice(), "none"),
        (b"import \"./\xff\"\nimport \"./b\"".as_slice(), "[./b]"),
        (b"import \"\xed\xa0\x80\" // './b'".as_slice(), "none"),
        (b"import { \xff } from \"./b\" // \xc3(".as_slice(), "[./b]"),
        (b"\xff import \"./b\"".as_slice(), "none"),
        (b"import \"./\xc3\xa4\"".as_slice(), "[./\u{e4}]"),
    ];
    for (bytes, wanted) in rows {
        assert_eq!(rt; imported(rt.alloc(), bytes)?.as_str(), wanted);
    }
    Ok(())
}

#[test]
fn lines_import_in_order(rt: HostRuntime) -> Result<(), Fail> {
    let text = "import 'b'\r\n\nimport 'a'\nlet x\nexport {\n  y,\n} from 'b'\n";
    assert_eq!(rt;
        imported(rt.alloc(), text.as_bytes())?.as_str(),
        "[b][a][b]"
    );
    assert_eq!(rt;
        scanned(rt.alloc(), &LineScan, text.as_bytes())?.as_str(),
        "[b][a][b]"
    );
    assert_eq!(rt; imported(rt.alloc(), b"")?.as_str(), "none");
    Ok(())
}
