// The forms of imports, and names that only look like imports; what is wanted is the syntax tree's, by acorn.
use crate::told::agrees;
use std::test::Fail;

// Texts and their imports, a line each, apart by `⇒`, with the marks of `agrees`.
fn forms() -> &'static str {
    r###"import 'a' ⇒ Static 7 a|
import "a"; ⇒ Static 7 a|
import a from 'b' ⇒ Static 14 b|
import {a} from 'b' ⇒ Static 16 b|
import {a,} from 'b' ⇒ Static 17 b|
import {a as b, c} from 'd' ⇒ Static 24 d|
import * as a from 'b' ⇒ Static 19 b|
import a, {b} from 'c' ⇒ Static 19 c|
import a, * as b from 'c' ⇒ Static 22 c|
import {} from 'a' ⇒ Static 15 a|
import {default as a} from 'b' ⇒ Static 27 b|
import {'a b' as c} from 'd' ⇒ Static 25 d|
import {from} from 'a' ⇒ Static 19 a|
import from from 'a' ⇒ Static 17 a|
import as from 'a' ⇒ Static 15 a|
import {as as as} from 'a' ⇒ Static 23 a|
import {import as a} from 'b' ⇒ Static 26 b|
import {type} from 'a' ⇒ Static 19 a|
import type from 'a' ⇒ Static 17 a|
import require from 'a' ⇒ Static 20 a|
import {require} from 'a' ⇒ Static 22 a|
import of from 'a' ⇒ Static 15 a|
import async from 'a' ⇒ Static 18 a|
import get, {set} from 'a' ⇒ Static 23 a|
import⏎{⏎  a, // one⏎  b /* two */,⏎}⏎from⏎'c' ⇒ Static 43 c|
import /* ' */ a /* " */ from /* ` */ 'b' ⇒ Static 38 b|
import//⏎a//⏎from//⏎'b' ⇒ Static 20 b|
/* import 'a' */ import 'b' // import 'c' ⇒ Static 24 b|
import{a}from'b';import{c}from'd' ⇒ Static 13 b|Static 30 d|
import a from'b';import'c' ⇒ Static 13 b|Static 23 c|
import 'a'⏎import 'b'⏎⏎import 'c' ⇒ Static 7 a|Static 18 b|Static 30 c|
export * from 'a' ⇒ Export 14 a|
export * as a from 'b' ⇒ Export 19 b|
export * as default from 'a' ⇒ Export 25 a|
export * as 'a b' from 'c' ⇒ Export 23 c|
export {} from 'a' ⇒ Export 15 a|
export {a} from 'b' ⇒ Export 16 b|
export {a as b} from 'c' ⇒ Export 21 c|
export {default} from 'a' ⇒ Export 22 a|
export {default as a, b as default} from 'c' ⇒ Export 41 c|
export {'a' as 'b'} from 'c' ⇒ Export 25 c|
export {import} from 'a' ⇒ Export 21 a|
export {export as import, from} from 'a' ⇒ Export 37 a|
export⏎*⏎from⏎'a' ⇒ Export 14 a|
export{a}from'b' ⇒ Export 13 b|
var a; export {a} ⇒ 
var a; export {a}⏎import b from 'c' ⇒ Static 32 c|
export {}⏎export * from 'a' ⇒ Export 24 a|
var a; export {a as b}; import 'c' ⇒ Static 31 c|
export default 'a' ⇒ 
export default function () {} import 'a' ⇒ Static 37 a|
export default class {}⏎import 'a' ⇒ Static 31 a|
export const a = 'b' ⇒ 
export let from = 'a' ⇒ 
export function a() {} export * from 'b' ⇒ Export 37 b|
export default {a: 'b'}⏎import 'c' ⇒ Static 31 c|
export default import('a') ⇒ Dynamic 22 a|
export default require('a') ⇒ Require 23 a|
export const {a} = require('b') ⇒ Require 27 b|
import('a') ⇒ Dynamic 7 a|
import("a") ⇒ Dynamic 7 a|
import(`a`) ⇒ Dynamic 7 a|
import('a').then(b => b) ⇒ Dynamic 7 a|
await import('a') ⇒ Dynamic 13 a|
import( /* webpackChunkName: 'b' */ 'a' ) ⇒ Dynamic 36 a|
import(⏎'a'⏎) ⇒ Dynamic 8 a|
() => import('a') ⇒ Dynamic 13 a|
a ? import('b') : import('c') ⇒ Dynamic 11 b|Dynamic 25 c|
import('a' + 'b') ⇒ 
import(a) ⇒ 
import(`a${b}`) ⇒ 
import('a').import ⇒ Dynamic 7 a|
import(import('a')) ⇒ Dynamic 14 a|
import(require('a')) ⇒ Require 15 a|
[import('a'), import('b')] ⇒ Dynamic 8 a|Dynamic 21 b|
require('a') ⇒ Require 8 a|
require("a") ⇒ Require 8 a|
require(`a`) ⇒ Require 8 a|
require('a').b ⇒ Require 8 a|
var a = require('b') ⇒ Require 16 b|
const {a} = require('b'), c = require('d') ⇒ Require 20 b|Require 38 d|
require ( 'a' ) ⇒ Require 10 a|
require(/* a */'b') ⇒ Require 15 b|
require⏎('a') ⇒ Require 9 a|
require('a')('b') ⇒ Require 8 a|
require('a', 'b') ⇒ 
require() ⇒ 
require(a) ⇒ 
require('a' + b) ⇒ 
require(`a${b}`) ⇒ 
require(require('a')) ⇒ Require 16 a|
require['a'] ⇒ 
require.resolve('a') ⇒ 
require ⇒ 
require = 'a' ⇒ 
require('a')⏎require('b') ⇒ Require 8 a|Require 21 b|
if (a) require('b'); else require('c') ⇒ Require 15 b|Require 34 c|
a && require('b') ⇒ Require 13 b|
!require('a') ⇒ Require 9 a|
typeof require('a') ⇒ Require 15 a|
return require('a') ⇒ Require 15 a|
module.exports = require('./a') ⇒ Require 25 ./a|
(0, require)('a') ⇒ 
f(require('a'), require('b')) ⇒ Require 10 a|Require 24 b|
({a: require('b'), ...require('c')}) ⇒ Require 13 b|Require 30 c|"###
}

#[test]
fn forms_are_found(rt: HostRuntime) -> Result<(), Fail> {
    agrees(&rt, rt.alloc(), forms())
}

// Names that look like imports, and what is found in their texts.
fn names() -> &'static str {
    r###"a.import('b') ⇒ 
a.require('b') ⇒ 
a?.require('b') ⇒ 
a⏎.require('b') ⇒ 
a./* b */require('c') ⇒ 
({ import: 'a' }) ⇒ 
({ require: 'a' }) ⇒ 
({ require() {} }) ⇒ 
({ import() {} }) ⇒ 
({ get import() {} }) ⇒ 
class A { import() {} require() {} } ⇒ 
class A { static require = 'a' } ⇒ 
class A { #require; a() { this.#require('b') } } ⇒ 
class A { #import; a() { this.#import('b') } } ⇒ 
import.meta ⇒ 
import.meta.url; import('a') ⇒ Dynamic 24 a|
import.meta.require('a') ⇒ 
new URL('a', import.meta.url) ⇒ 
a.from; 'b' ⇒ 
from('a') ⇒ 
exports.a = 'b' ⇒ 
function require(a) {} require('b') ⇒ Require 31 b|
importa('b') ⇒ 
$import('a') ⇒ 
_require('a') ⇒ 
require2('a') ⇒ 
requirе('a') ⇒ 
éimport('a') ⇒ 
a.export; import('b') ⇒ Dynamic 17 b|
a = {export: 1, from: 'b'} ⇒ 
({ 'import': require('a') }) ⇒ Require 21 a|
a['require']('b') ⇒ 
type: require('a') ⇒ Require 14 a|
as; from; type; import('a') ⇒ Dynamic 23 a|
let type = 'a' ⇒ 
var from = 'a', as = 'b' ⇒ 
a.b.require('c'); require('d') ⇒ Require 26 d|
[...require('a')] ⇒ Require 12 a|
f(...require('a')) ⇒ Require 13 a|
a = .5.require ⇒ 
1..require('a') ⇒ 
a?.5:require('b') ⇒ Require 13 b|
a?.[require('b')] ⇒ Require 12 b|"###
}

#[test]
fn other_names_are_none(rt: HostRuntime) -> Result<(), Fail> {
    agrees(&rt, rt.alloc(), names())
}
