// Strings, templates, numbers, names and marks; what is wanted is the syntax tree's, by acorn.
use crate::told::agrees;
use std::test::Fail;

// Texts and their imports, a line each, apart by `⇒`, with the marks of `agrees`.
fn literals() -> &'static str {
    r###"import('\x61') ⇒ Dynamic 7 a|
import('\u0061') ⇒ Dynamic 7 a|
import('\u{61}') ⇒ Dynamic 7 a|
import('\u{1F600}') ⇒ Dynamic 7 😀|
import('\u{000061}') ⇒ Dynamic 7 a|
import('\uD83D\uDE00') ⇒ Dynamic 7 😀|
import('\n\t\b\v\f\r'.a), import('\'') ⇒ Dynamic 33 '|
import("\"") ⇒ Dynamic 7 "|
import('\\') ⇒ Dynamic 7 \|
import('\a') ⇒ Dynamic 7 a|
import('\0') ⇒ Dynamic 7 ␀|
import('a\⏎b') ⇒ Dynamic 7 ab|
import('\/') ⇒ Dynamic 7 /|
import('é') ⇒ Dynamic 7 é|
import('😀') ⇒ Dynamic 7 😀|
import('\é') ⇒ Dynamic 7 é|
import('⇣') ⇒ Dynamic 7 ⇣|
import('a"b`c') ⇒ Dynamic 7 a"b`c|
import("a'b") ⇒ Dynamic 7 a'b|
import(`'`) ⇒ Dynamic 7 '|
import(`\u0061`) ⇒ Dynamic 7 a|
import(`\``) ⇒ Dynamic 7 `|
import(`$`) ⇒ Dynamic 7 $|
import(`\${`) ⇒ Dynamic 7 ${|
import(`$\{`) ⇒ Dynamic 7 ${|
import('') ⇒ Dynamic 7 |
import 'é'; import 'b' ⇒ Static 7 é|Static 20 b|
/* é */ import 'a' ⇒ Static 16 a|
'😀'; import 'a' ⇒ Static 15 a|
require('\101') ⇒ Require 8 A|
require('\377') ⇒ Require 8 ÿ|
require('\47') ⇒ Require 8 '|
require('\08') ⇒ Require 8 ␀8|
require('\400') ⇒ Require 8  0|
import(`\x61`) ⇒ Dynamic 7 a|
import('./a/../b.js?c=d#e') ⇒ Dynamic 7 ./a/../b.js?c=d#e|
import('node:fs') ⇒ Dynamic 7 node:fs|
import('@a/b') ⇒ Dynamic 7 @a/b|
1; import('a') ⇒ Dynamic 10 a|
1.5e+3; import('a') ⇒ Dynamic 15 a|
1e-3; import('a') ⇒ Dynamic 13 a|
.5; import('a') ⇒ Dynamic 11 a|
1.; import('a') ⇒ Dynamic 11 a|
0x1F; import('a') ⇒ Dynamic 13 a|
0b11; import('a') ⇒ Dynamic 13 a|
0o17; import('a') ⇒ Dynamic 13 a|
1_000; import('a') ⇒ Dynamic 14 a|
10n; import('a') ⇒ Dynamic 12 a|
0xFn / 'a' / import('b') ⇒ Dynamic 20 b|
1.e3; import('a') ⇒ Dynamic 13 a|
1..toFixed; import('a') ⇒ Dynamic 19 a|
5..a / 'b'; import('c') ⇒ Dynamic 19 c|
0xe+'a'; import('b') ⇒ Dynamic 16 b|
1e3.a; import('b') ⇒ Dynamic 14 b|
017; import('a') ⇒ Dynamic 12 a|
089.5; import('a') ⇒ Dynamic 14 a|
a = 'b'; import('c') ⇒ Dynamic 17 c|
﻿import('a') ⇒ Dynamic 10 a|
a　/ 'b'; import('c') ⇒ Dynamic 18 c|
import 'a' ⇒ Static 9 a|
\u0061 / 'b'; import('c') ⇒ Dynamic 21 c|
\u{61}b / 'c'; import('d') ⇒ Dynamic 22 d|
a\u0062 / 'c'; import('d') ⇒ Dynamic 22 d|
π / 'a'; import('b') ⇒ Dynamic 17 b|
𝒳 / 'a'; import('b') ⇒ Dynamic 19 b|
$ / 'a'; import('b') ⇒ Dynamic 16 b|
_ / 'a'; import('b') ⇒ Dynamic 16 b|
a ||= 'b'; import('c') ⇒ Dynamic 18 c|
a &&= 'b'; import('c') ⇒ Dynamic 18 c|
a ??= 'b'; import('c') ⇒ Dynamic 18 c|
a ?? 'b'; import('c') ⇒ Dynamic 17 c|
a ** 'b'; import('c') ⇒ Dynamic 17 c|
a **= 'b'; import('c') ⇒ Dynamic 18 c|
a >>>= 'b'; import('c') ⇒ Dynamic 19 c|
a >>> 'b'; import('c') ⇒ Dynamic 18 c|
a <<= 'b'; import('c') ⇒ Dynamic 18 c|
a => 'b'; import('c') ⇒ Dynamic 17 c|
a !== 'b'; import('c') ⇒ Dynamic 18 c|
a === 'b'; import('c') ⇒ Dynamic 18 c|
a?.b; import('c') ⇒ Dynamic 13 c|
a?.5:'b'; import('c') ⇒ Dynamic 17 c|
[...'a']; import('b') ⇒ Dynamic 17 b|
~'a'; import('b') ⇒ Dynamic 13 b|
a ^ 'b'; import('c') ⇒ Dynamic 16 c|
a % 'b'; import('c') ⇒ Dynamic 16 c|
a |= 'b'; import('c') ⇒ Dynamic 17 c|"###
}

#[test]
fn literals_are_read(rt: HostRuntime) -> Result<(), Fail> {
    agrees(&rt, rt.alloc(), literals())
}
