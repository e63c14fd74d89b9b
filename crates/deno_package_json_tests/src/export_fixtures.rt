// What packages export: a table that Node answers too, and one in which it answers otherwise.

/// Packages, each with a subpath and with conditions: the file that the subpath means. Node 20.20.2 answers each of
/// them so, asked for the subpath of such a package by `require.resolve` under these conditions beside its own.
pub(crate) fn exports_as_node() -> &'static str {
    r##"# exact keys
{"exports":{".":"./m.js"}} | . | default = ./m.js
{"exports":"./m.js"} | . | default = ./m.js
{"exports":{".":"./m.js"}} | ./m.js | default = none
{"exports":{".":"./m.js","./a":"./lib/a.js"}} | ./a | default = ./lib/a.js
{"exports":{"./a":"./lib/a.js"}} | . | default = none
{"exports":{"./a":"./lib/a.js"}} | ./a/b | default = none
{"exports":{"./a.js":"./lib/a.js"}} | ./a | default = none
{"exports":{"./é":"./e.js"}} | ./é | default = ./e.js
{"exports":{}} | . | default = none
# keys with a `*`
{"exports":{"./f/*":"./lib/*.js"}} | ./f/a | default = ./lib/a.js
{"exports":{"./f/*":"./lib/*.js"}} | ./f/a/b | default = ./lib/a/b.js
{"exports":{"./f/*.js":"./lib/*.js"}} | ./f/a.js | default = ./lib/a.js
{"exports":{"./f/*.js":"./lib/*.js"}} | ./f/a.css | default = none
{"exports":{"./*":"./*"}} | ./a.js | default = ./a.js
{"exports":{"./f*":"./lib/*.js"}} | ./fa | default = ./lib/a.js
{"exports":{"./f/*":"./lib/a.js"}} | ./f/b | default = ./lib/a.js
# a rest is never empty
{"exports":{"./f/*":"./lib/*.js"}} | ./f/ | default = none
{"exports":{"./f/*.js":"./lib/*.js"}} | ./f/.js | default = none
{"exports":{"./f*f":"./lib/*.js"}} | ./f | default = none
{"exports":{"./f*f":"./lib/*.js"}} | ./ff | default = none
{"exports":{"./f*f":"./lib/*.js"}} | ./fff | default = ./lib/f.js
# the key itself before a key with a `*`
{"exports":{"./f/*":"./lib/*.js","./f/a":"./own.js"}} | ./f/a | default = ./own.js
{"exports":{"./f/*":"./lib/*.js","./f/a":null}} | ./f/a | default = none
# the longest text before the `*`, and of equal ones the longest key
{"exports":{"./*":"./one.js","./f/*":"./two.js"}} | ./f/a | default = ./two.js
{"exports":{"./f/*":"./two.js","./*":"./one.js"}} | ./f/a | default = ./two.js
{"exports":{"./f/*":"./one.js","./f/*.js":"./two.js"}} | ./f/a.js | default = ./two.js
{"exports":{"./f/*.js":"./two.js","./f/*":"./one.js"}} | ./f/a.js | default = ./two.js
{"exports":{"./f/*.js":"./one.js","./f/*a.js":"./two.js"}} | ./f/ba.js | default = ./two.js
{"exports":{"./f/*a.js":"./two.js","./f/*.js":"./one.js"}} | ./f/b.js | default = ./one.js
{"exports":{"./f/*":"./one.js","./f/x/*":null}} | ./f/x/a | default = none
{"exports":{"./f/*":"./one.js","./f/x/*":null}} | ./f/y | default = ./one.js
# two `*` in a key never fit, and each `*` of a target is replaced
{"exports":{"./f/*/*":"./lib/*.js"}} | ./f/a/b | default = none
{"exports":{"./f/*/*":"./one.js","./f/*":"./two.js"}} | ./f/a/b | default = ./two.js
{"exports":{"./f/*":"./lib/*/*.js"}} | ./f/a | default = ./lib/a/a.js
{"exports":{"./f/*":"./lib/***.js"}} | ./f/a | default = ./lib/aaa.js
{"exports":{".":"./lib/*.js"}} | . | default = ./lib/*.js
# a subpath with a `*` is no key of its own
{"exports":{"./f/*":"./lib/*.js"}} | ./f/* | default = ./lib/*.js
{"exports":{"./*":"./m.js"}} | ./* | default = ./m.js
# conditions
{"exports":{"default":"./c.js","import":"./e.js"}} | . | default = ./c.js
{"exports":{"import":"./e.js","default":"./c.js"}} | . | import,default = ./e.js
{"exports":{"x":"./x.js","default":"./c.js"}} | . | y,default = ./c.js
{"exports":{"x":"./x.js"}} | . | y = none
{"exports":{".":"./m.js"}} | . |  = ./m.js
{"exports":{"node":{"x":"./nx.js","default":"./n.js"},"default":"./c.js"}} | . | node,x,default = ./nx.js
{"exports":{"node":{"x":"./nx.js"},"default":"./c.js"}} | . | node,default = ./c.js
{"exports":{"node":{"x":{"y":"./xy.js"}},"default":"./c.js"}} | . | node,x,default = ./c.js
{"exports":{"./a":{"x":"./x.js","default":"./a.js"}}} | ./a | x,default = ./x.js
{"exports":{"./f/*":{"x":"./x/*.js","default":"./d/*.js"}}} | ./f/a | x,default = ./x/a.js
# lists
{"exports":["./a.js","./b.js"]} | . | default = ./a.js
{"exports":[{"x":"./x.js"},"./b.js"]} | . | default = ./b.js
{"exports":[{"x":"./x.js"},"./b.js"]} | . | x,default = ./x.js
{"exports":[null,"./b.js"]} | . | default = ./b.js
{"exports":[]} | . | default = none
{"exports":["a.js","./b.js"]} | . | default = ./b.js
{"exports":[[{"x":"./x.js"}],["./b.js"]]} | . | default = ./b.js
# other values have no target
{"exports":{".":1}} | . | default = none
{"exports":{".":true}} | . | default = none
{"exports":{".":null}} | . | default = none
{"exports":{".":"m.js"}} | . | default = none
{"exports":{".":"../m.js"}} | . | default = none
{"exports":{".":"/m.js"}} | . | default = none
{"exports":{".":{"default":7}}} | . | default = none
{"exports":{".":""}} | . | default = none
{"exports":{".":"."}} | . | default = none"##
}

/// Packages with a subpath and conditions, where Node answers otherwise, by the rules that are this project's own.
pub(crate) fn exports_of_our_own() -> &'static str {
    r##"# the conditions' order counts, where Node takes the object's
{"exports":{"default":"./c.js","import":"./e.js"}} | . | import,default = ./e.js
{"exports":{"import":"./e.js","default":"./c.js"}} | . | default,import = ./c.js
# `default` counts only where it is given, where Node always counts it
{"exports":{"import":"./e.js","default":"./c.js"}} | . |  = none
{"exports":{"default":"./c.js"}} | . | import = none
# null has no target, and the next condition is looked at, where Node ends there
{"exports":{"node":null,"default":"./c.js"}} | . | node,default = ./c.js
# a text that begins with `./` names a file, where Node looks for one and finds none
{"exports":{".":"./"}} | . | default = ./"##
}
