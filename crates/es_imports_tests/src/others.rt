// Forms of TypeScript, attributes, broken forms, escapes that aren't well formed, and texts that end too early.
use crate::told::agrees;
use std::test::Fail;

// Texts and their imports, a line each, apart by `⇒`, with the marks of `agrees`.
fn typescript() -> &'static str {
    r###"import type a from 'b' ⇒ Static type 19 b|
import type {a} from 'b' ⇒ Static type 21 b|
import type * as a from 'b' ⇒ Static type 24 b|
import type from 'a' ⇒ Static 17 a|
import type from from 'a' ⇒ Static type 22 a|
import type, {a} from 'b' ⇒ Static 22 b|
import type type from 'a' ⇒ Static type 22 a|
import {type a} from 'b' ⇒ Static 21 b|
import type⏎  a⏎from 'b' ⇒ Static type 21 b|
export type {a} from 'b' ⇒ Export type 21 b|
export type * from 'a' ⇒ Export type 19 a|
export type * as a from 'b' ⇒ Export type 24 b|
export type a = 'b'; import 'c' ⇒ Static 28 c|
import a = require('b') ⇒ ImportEquals 19 b|
import type a = require('b') ⇒ ImportEquals type 24 b|
export import a = require('b') ⇒ ImportEquals 26 b|
import type = require('a') ⇒ ImportEquals 22 a|
import a = b.c; import('d') ⇒ Dynamic 23 d|
import a = b.require; require('c') ⇒ Require 30 c|
type a = import('b').c ⇒ Dynamic 16 b|
let a: typeof import('b') ⇒ Dynamic 21 b|
function a(b: import('c').d): e { return /'/ } import('f') ⇒ Dynamic 21 c|Dynamic 54 f|
declare module 'a' { import b from 'c' } ⇒ Static 35 c|
import 'a' with {type: 'json'}; import('b') ⇒ Static 7 a|Dynamic 39 b|
import a from 'b' assert {type: 'json'} ⇒ Static 14 b|
export * from 'a' with {type: 'json'}⏎import 'b' ⇒ Export 14 a|Static 45 b|
import('a', {with: {type: 'json'}}) ⇒ Dynamic 7 a|
import('a', b) ⇒ Dynamic 7 a|
import { a, b from 'c'; import 'd' ⇒ Static 31 d|
import a b from 'c' ⇒ 
export * as from 'a' ⇒ 
import {a from "b"} from 'c' ⇒ Static 25 c|
import(('a')); require(('b')) ⇒ 
import('\uD83D') ⇒ Dynamic 7 �|
import('\uDE00\uD83D') ⇒ Dynamic 7 ��|
import('\uD83Da') ⇒ Dynamic 7 �a|
import('\u{110000}') ⇒ Dynamic 7 u{110000}|
import('\xg1') ⇒ Dynamic 7 xg1|
import('\u12') ⇒ Dynamic 7 u12|"###
}

#[test]
fn typescript_is_read(rt: HostRuntime) -> Result<(), Fail> {
    agrees(&rt, rt.alloc(), typescript())
}

// Texts and the errors against them.
fn refused() -> &'static str {
    r###"' ⇒ Refused { place: 0, cause: StringLiteral }
import('a); b ⇒ Refused { place: 7, cause: StringLiteral }
a = "b⏎" ⇒ Refused { place: 4, cause: StringLiteral }
import('a'); 'b\ ⇒ Refused { place: 13, cause: StringLiteral }
é = 'b ⇒ Refused { place: 5, cause: StringLiteral }
/* a ⇒ Refused { place: 0, cause: Comment }
import 'a' /* b * / ⇒ Refused { place: 11, cause: Comment }
a /*/ ⇒ Refused { place: 2, cause: Comment }
`a ⇒ Refused { place: 0, cause: Template }
`a${b}c ⇒ Refused { place: 5, cause: Template }
`a${b}c${`d`}\` ⇒ Refused { place: 12, cause: Template }
/a ⇒ Refused { place: 0, cause: RegularExpression }
a = /b⏎/ ⇒ Refused { place: 4, cause: RegularExpression }
/[/ ⇒ Refused { place: 0, cause: RegularExpression }
/\ ⇒ Refused { place: 0, cause: RegularExpression }
/[a⏎]/ ⇒ Refused { place: 0, cause: RegularExpression }
# ⇒ Refused { place: 0, cause: Character }
a # b ⇒ Refused { place: 2, cause: Character }
a \ b ⇒ Refused { place: 2, cause: Character }
\u00 = 'a' ⇒ Refused { place: 0, cause: Character }
\u{} = 'a' ⇒ Refused { place: 0, cause: Character }
a␀b ⇒ Refused { place: 1, cause: Character }
 #!a ⇒ Refused { place: 1, cause: Character }
`a${b ⇒ 
(a ⇒ 
{ ⇒ 
)]} ⇒ 
 ⇒ 
 ⏎  ⇒ "###
}

#[test]
fn cut_texts_are_refused(rt: HostRuntime) -> Result<(), Fail> {
    agrees(&rt, rt.alloc(), refused())
}
