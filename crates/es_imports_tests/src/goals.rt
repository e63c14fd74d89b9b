// Texts whose slashes, braces and quotes are told by what stands before them; what is wanted is the syntax
// tree's, by acorn.
use crate::told::agrees;
use std::test::Fail;

// Texts and their imports, a line each, apart by `⇒`, with the marks of `agrees`.
fn goals() -> &'static str {
    r###"a / b / 'c'; import('d') ⇒ Dynamic 20 d|
a / 'b' / import('c') ⇒ Dynamic 17 c|
/'/; import('a') ⇒ Dynamic 12 a|
/"/.test(a); import('b') ⇒ Dynamic 20 b|
if (a) /'/.test(b); import('c') ⇒ Dynamic 27 c|
while (a) /'/.test(b); import('c') ⇒ Dynamic 30 c|
for (;;) /'/.test(b); import('c') ⇒ Dynamic 29 c|
with (a) /'/.test(b); require('c') ⇒ Require 30 c|
(a) / 'b' / import('c') ⇒ Dynamic 19 c|
a() / 'b' / import('c') ⇒ Dynamic 19 c|
if (a) {} /'/.test(b); import('c') ⇒ Dynamic 30 c|
{} /'/.test(a); import('b') ⇒ Dynamic 23 b|
a = {} / 'b'; import('c') ⇒ Dynamic 21 c|
({}) / 'a'; import('b') ⇒ Dynamic 19 b|
a++ / 'b' / import('c') ⇒ Dynamic 19 c|
a-- / 'b' / import('c') ⇒ Dynamic 19 c|
a = +/'/; import('b') ⇒ Dynamic 17 b|
return /'/; import('a') ⇒ Dynamic 19 a|
typeof /'/; import('a') ⇒ Dynamic 19 a|
a in /'/; import('b') ⇒ Dynamic 17 b|
a instanceof /'/; import('b') ⇒ Dynamic 25 b|
void /'/; import('a') ⇒ Dynamic 17 a|
delete /'/; import('a') ⇒ Dynamic 19 a|
throw /'/; import('a') ⇒ Dynamic 18 a|
do /'/.test(a); while (b) import('c') ⇒ Dynamic 33 c|
if (a) b; else /'/.test(c); import('d') ⇒ Dynamic 35 d|
switch (a) { case /'/: } import('b') ⇒ Dynamic 32 b|
for (a of /'/.b) import('c') ⇒ Dynamic 24 c|
function* a() { yield /'/ } import('b') ⇒ Dynamic 35 b|
async function a() { await /'/ } import('b') ⇒ Dynamic 40 b|
new /'/.a; import('b') ⇒ Dynamic 18 b|
a.return / 'b'; import('c') ⇒ Dynamic 23 c|
x => /'/; import('a') ⇒ Dynamic 17 a|
/[/]'/; import('a') ⇒ Dynamic 15 a|
/[']/; import('a') ⇒ Dynamic 14 a|
/\/'/; import('a') ⇒ Dynamic 14 a|
/[\]']/; import('a') ⇒ Dynamic 16 a|
/\['/; import('a') ⇒ Dynamic 14 a|
/a/g / 'b'; import('c') ⇒ Dynamic 19 c|
/'/gimsuy; import('a') ⇒ Dynamic 18 a|
/=/; import('a') ⇒ Dynamic 12 a|
a /= 'b'; import('c') ⇒ Dynamic 17 c|
a = b / /'/; import('c') ⇒ Dynamic 20 c|
a[0] / 'b' / import('c') ⇒ Dynamic 20 c|
a = [/'/, /"/]; import('b') ⇒ Dynamic 23 b|
a(/'/, b); import('c') ⇒ Dynamic 18 c|
!/'/; import('a') ⇒ Dynamic 13 a|
a ? /'/ : /"/; import('b') ⇒ Dynamic 22 b|
a⏎/b/'c'; import('d') ⇒ Dynamic 17 d|
this / 'a' / import('b') ⇒ Dynamic 20 b|
null / 'a'; import('b') ⇒ Dynamic 19 b|
'a' / 'b' / import('c') ⇒ Dynamic 19 c|
`a` / 'b' / import('c') ⇒ Dynamic 19 c|
1 / 'a' / import('b') ⇒ Dynamic 17 b|
for await (a of b) /'/.test(c); import('d') ⇒ Dynamic 39 d|
a => ({}) / 'b'; import('c') ⇒ Dynamic 24 c|
`'`; import('a') ⇒ Dynamic 12 a|
`\``; import('a') ⇒ Dynamic 13 a|
`${a}'`; import('b') ⇒ Dynamic 16 b|
`${'}'}`; import('a') ⇒ Dynamic 17 a|
`${`'`}`; import('a') ⇒ Dynamic 17 a|
`${ `${ '}' }'` }'`; import('a') ⇒ Dynamic 28 a|
`${{a: '}'}}'`; import('b') ⇒ Dynamic 23 b|
`${{}}'`; import('a') ⇒ Dynamic 17 a|
`${import('a')}'${require('b')}` ⇒ Dynamic 10 a|Require 26 b|
`$`; import('a') ⇒ Dynamic 12 a|
`$$'${a}`; import('b') ⇒ Dynamic 18 b|
`${a}${b}'${c}`; import('d') ⇒ Dynamic 24 d|
`${/}'/}'`; import('a') ⇒ Dynamic 19 a|
`${a / '}' }'`; import('b') ⇒ Dynamic 23 b|
`import('a')`; import('b') ⇒ Dynamic 22 b|
`${() => { return '}' }}'`; import('a') ⇒ Dynamic 35 a|
a`'${b}'`; import('c') ⇒ Dynamic 18 c|
`⏎'⏎`; import('a') ⇒ Dynamic 14 a|
`\${'`; import('a') ⇒ Dynamic 15 a|
`}'`; import('a') ⇒ Dynamic 13 a|
// '⏎import('a') ⇒ Dynamic 12 a|
/* ' */ import('a') ⇒ Dynamic 15 a|
/* * / ' */ import('a') ⇒ Dynamic 19 a|
/**/ import('a') ⇒ Dynamic 12 a|
/***/ import('a') ⇒ Dynamic 13 a|
a /* b */ / 'c'; import('d') ⇒ Dynamic 24 d|
a // b⏎/ 'c'; import('d') ⇒ Dynamic 21 d|
#!/usr/bin/env 'node'⏎import('a') ⇒ Dynamic 29 a|
<!-- '⏎import('a') ⇒ Dynamic 14 a|
--> '⏎import('a') ⇒ Dynamic 13 a|
/* ⏎ */ --> '⏎import('a') ⇒ Dynamic 21 a|
a--> 'b'; import('c') ⇒ Dynamic 17 c|
a --> 'b'; import('c') ⇒ Dynamic 18 c|
while (a --> 0) import('b') ⇒ Dynamic 23 b|
a⏎--> '⏎import('b') ⇒ Dynamic 15 b|
'// a'; import('b') ⇒ Dynamic 15 b|
'/* a'; import('b') ⇒ Dynamic 15 b|
/\/\/'/; import('a') ⇒ Dynamic 16 a|
//⇣import('a') ⇒ Dynamic 12 a|
a //⇟/ 'b'; import('c') ⇒ Dynamic 21 c|"###
}

#[test]
fn goals_are_told(rt: HostRuntime) -> Result<(), Fail> {
    agrees(&rt, rt.alloc(), goals())
}
