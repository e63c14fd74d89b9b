// Texts with elements of JSX; what is wanted is the syntax tree's, by acorn-jsx.
use crate::told::{told_jsx, unmarked};
use std::test::Fail;

// Texts and their imports, a line each, apart by `⇒`, with the marks of `agrees`.
fn elements() -> &'static str {
    r###"<a b="c'" d={import('e')}>it's {import('f')}</a>; import('g') ⇒ Dynamic 20 e|Dynamic 39 f|Dynamic 57 g|
<>it's</>; import('a') ⇒ Dynamic 18 a|
<a/>; import('b') ⇒ Dynamic 13 b|
x = <a b='c"'/>; import('d') ⇒ Dynamic 24 d|
<a>{`'`}</a>; import('b') ⇒ Dynamic 21 b|
<a><b>'</b>"</a>; import('c') ⇒ Dynamic 25 c|
<a b=<c>'</c>/>; import('d') ⇒ Dynamic 24 d|
<a {...b} c/>; import('d') ⇒ Dynamic 22 d|
<a.b c:d='e' f-g/>; import('h') ⇒ Dynamic 27 h|
<a>{/* ' */}</a>; import('b') ⇒ Dynamic 25 b|
<a>{b ? <c>'</c> : "'"}</a>; import('d') ⇒ Dynamic 36 d|
a < b / 'c'; import('d') ⇒ Dynamic 20 d|
a<b; c>'d'; import('e') ⇒ Dynamic 19 e|
() => <a>'</a>; import('b') ⇒ Dynamic 23 b|
return <a>'</a>; import('b') ⇒ Dynamic 24 b|
f(<a>'</a>, import('b')) ⇒ Dynamic 19 b|
<a>{'<'}</a>; import('b') ⇒ Dynamic 21 b|
<a>import 'b'</a>; import('c') ⇒ Dynamic 26 c|
<a import='b' from='c'/>; import('d') ⇒ Dynamic 33 d|
<a>&quot;'</a>; import('b') ⇒ Dynamic 23 b|
<a>⏎'⏎</a>⏎import('b') ⇒ Dynamic 18 b|
<a /* ' */ b // '⏎/>; import('c') ⇒ Dynamic 29 c|
import a from 'b'⏎export default () => <a>it's</a>⏎ ⇒ Static 14 b|
<a>{{b: '}'}.c}'</a>; import('d') ⇒ Dynamic 29 d|
`${<a>'</a>}`; import('b') ⇒ Dynamic 22 b|
<a>// '</a>; import('b') ⇒ Dynamic 20 b|
<a>/* '</a>; import('b') ⇒ Dynamic 20 b|
<a b='\'/>; import('c') ⇒ Dynamic 19 c|
<a b='⏎'/>; import('c') ⇒ Dynamic 19 c|
<a></a>; import('b') ⇒ Dynamic 16 b|
<a b={`}`}>'</a>; import('c') ⇒ Dynamic 25 c|
<a b={() => { return '}' }}>'</a>; import('c') ⇒ Dynamic 42 c|
const a = b && <c>don't</c>; import('d') ⇒ Dynamic 36 d|
<a>{}</a>; import('b') ⇒ Dynamic 18 b|
[<a>'</a>, <b>'</b>]; import('c') ⇒ Dynamic 29 c|
a ? <b>'</b> : <c>"</c>; import('d') ⇒ Dynamic 32 d|
<a>é'</a>; import('b') ⇒ Dynamic 19 b|
import('a'); <b>{require('c')}</b> ⇒ Dynamic 7 a|Require 25 c|"###
}

#[test]
fn elements_are_read(rt: HostRuntime) -> Result<(), Fail> {
    for line in elements().split('\n') {
        let line = unmarked(rt.alloc(), line)?;
        if let Some((text, wanted)) = line.as_str().split_once(" ⇒ ") {
            assert_eq!(rt; told_jsx(rt.alloc(), text)?.as_str(), wanted, "{text}");
        }
    }
    Ok(())
}
