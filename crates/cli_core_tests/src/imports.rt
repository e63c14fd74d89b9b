// Source texts of a line, and the line that is written for each.
use crate::documents::{comes_to, documents_that_come};
use std::test::Fail;

// Texts that import one thing or nothing, and texts that are refused.
fn texts() -> &'static str {
    r#"# nothing
|
import.meta.url; a.require("b")|
# each form, with the place of its literal
import "a"|{"kind":"Static","place":7,"specifier":"a","type":false}
import type { T } from './t'|{"kind":"Static","place":23,"specifier":"./t","type":true}
/* é */ export * from "b"|{"kind":"Export","place":23,"specifier":"b","type":false}
x = import(`c`)|{"kind":"Dynamic","place":11,"specifier":"c","type":false}
require('\x64\u{65}')|{"kind":"Require","place":8,"specifier":"de","type":false}
import f = require("f")|{"kind":"ImportEquals","place":19,"specifier":"f","type":false}
# each cause, with its place
import "a"; /* b|refused: comment 12
'a|refused: string 0
`a${b}c|refused: template 5
a = /b|refused: regular-expression 4
é \|refused: character 3
<a>don't</a>|refused: string 6"#
}

// Texts with elements.
fn elements() -> &'static str {
    r#"<a>don't</a>|
<a b='c">'>import "d"{import("e")}</a>|{"kind":"Dynamic","place":29,"specifier":"e","type":false}
<a b="c|refused: string 5"#
}

#[test]
fn each_text_has_its_line(rt: HostRuntime) -> Result<(), Fail> {
    assert_eq!(rt; documents_that_come(rt.alloc(), "imports", texts())?, 14);
    Ok(())
}

#[test]
fn each_text_with_elements_has_its_line(rt: HostRuntime) -> Result<(), Fail> {
    assert_eq!(rt;
        documents_that_come(rt.alloc(), "imports --jsx", elements())?,
        3
    );
    Ok(())
}

#[test]
fn bytes_that_are_no_text_are_refused(rt: HostRuntime) -> Result<(), Fail> {
    let bytes = b"import 'a';\xFF";
    assert!(rt; comes_to(rt.alloc(), "imports", bytes, 1, "refused: not-utf8 11\n")?);
    Ok(())
}
