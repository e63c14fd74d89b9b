// Browser maps, worked out by hand from docs/ORDER.md: what a request comes to by them, the file that was found,
// if any, and its questions in order; and the calls for the rules alone.
use crate::rows::rows_come;
use std::test::Fail;
use swc_loader::TargetEnv;

// Which package.json counts, and what keys and texts mean.
fn keys_and_texts() -> &'static str {
    r#"# a file that another stands for
browser |  | /w/a.js; /w/b.js; /w/c.js; /w/package.json {"browser": {"./b.js": "./c.js"}} | /w/a.js ./b.js = /w/c.js | /w/c.js | /w/package.json read:/w/package.json /w/b.js /w/c.js /w/a.js canon:/w/c.js
# an ignored file: its path is answered as a name, and no canonical name is asked for
browser |  | /w/a.js; /w/b.js; /w/package.json {"browser": {"./b.js": false}} | /w/a.js ./b.js = custom /w/b.js |  | /w/package.json read:/w/package.json /w/b.js /w/a.js
# for the target Node no rules are read
node |  | /w/a.js; /w/b.js; /w/package.json {"browser": {"./b.js": false}} | /w/a.js ./b.js = /w/b.js | /w/b.js | /w/a.js /w/b.js canon:/w/b.js
# no package.json anywhere
browser |  | /w/a.js; /w/b.js | /w/a.js ./b.js = /w/b.js | /w/b.js | /w/package.json /package.json /w/a.js /w/b.js canon:/w/b.js
# a malformed package.json has no rules
browser |  | /w/a.js; /w/b.js; /w/package.json {"main": 1, "browser": {"./b.js": false}} | /w/a.js ./b.js = /w/b.js | /w/b.js | /w/package.json read:/w/package.json /w/a.js /w/b.js canon:/w/b.js
# so has one with a null in its map
browser |  | /w/a.js; /w/b.js; /w/package.json {"browser": {"./b.js": false, "./c.js": null}} | /w/a.js ./b.js = /w/b.js | /w/b.js | /w/package.json read:/w/package.json /w/a.js /w/b.js canon:/w/b.js
# and one that is no JSON
browser |  | /w/a.js; /w/b.js; /w/package.json {"browser": {"./b.js": false} | /w/a.js ./b.js = /w/b.js | /w/b.js | /w/package.json read:/w/package.json /w/a.js /w/b.js canon:/w/b.js
# a text gives no rules
browser |  | /w/a.js; /w/b.js; /w/c.js; /w/package.json {"main": "./b.js", "browser": "./c.js"} | /w/a.js ./b.js = /w/b.js | /w/b.js | /w/package.json read:/w/package.json /w/a.js /w/b.js canon:/w/b.js
# the nearest package.json counts, also where it has no map
browser |  | /w/p/a.js; /w/p/b.js; /w/package.json {"browser": {"./p/b.js": false}}; /w/p/package.json {} | /w/p/a.js ./b.js = /w/p/b.js | /w/p/b.js | /w/p/package.json read:/w/p/package.json /w/p/a.js /w/p/b.js canon:/w/p/b.js
# a text is the entry
browser |  | /w/a.js; /w/p/m.js; /w/p/n.js; /w/p/c.js; /w/p/package.json {"module": "n.js", "main": "m.js", "browser": "c.js"} | /w/a.js ./p = /w/p/c.js | /w/p/c.js | /w/package.json /package.json /w/a.js /w/p.js /w/p /w/p.ts /w/p.tsx /w/p.jsx /w/p.node /w/p/package.json read:/w/p/package.json /w/p/c.js canon:/w/p/c.js
# where it leads nowhere, the index files follow, and neither of the main fields
browser |  | /w/a.js; /w/p/m.js; /w/p/n.js; /w/p/index.js; /w/p/package.json {"module": "n.js", "main": "m.js", "browser": "c.js"} | /w/a.js ./p = /w/p/index.js | /w/p/index.js | /w/package.json /package.json /w/a.js /w/p.js /w/p /w/p.ts /w/p.tsx /w/p.jsx /w/p.node /w/p/package.json read:/w/p/package.json /w/p/c.js /w/p/c.js.ts /w/p/c.js.tsx /w/p/c.js.js /w/p/c.js.jsx /w/p/c.js.node /w/p/c.ts /w/p/c.tsx /w/p/c.js/index.ts /w/p/c.js/index.tsx /w/p/c.js/index.js /w/p/c.js/index.jsx /w/p/c.js/index.node /w/p/index.ts /w/p/index.tsx /w/p/index.js canon:/w/p/index.js
# a key whose place is nothing is a specifier, and decides at once
browser |  | /w/a.js; /w/c.js; /w/package.json {"browser": {"./gone": "./c.js"}} | /w/a.js ./gone = /w/c.js | /w/c.js | /w/package.json read:/w/package.json /w/gone.js /w/gone /w/gone.ts /w/gone.tsx /w/gone.jsx /w/gone.node /w/gone/index.ts /w/gone/index.tsx /w/gone/index.js /w/gone/index.jsx /w/gone/index.node /w/c.js canon:/w/c.js
# such a specifier is ignored by its own bytes
browser |  | /w/a.js; /w/package.json {"browser": {"./gone": false}} | /w/a.js ./gone = custom ./gone |  | /w/package.json read:/w/package.json /w/gone.js /w/gone /w/gone.ts /w/gone.tsx /w/gone.jsx /w/gone.node /w/gone/index.ts /w/gone/index.tsx /w/gone/index.js /w/gone/index.jsx /w/gone/index.node
# a key whose place is a file is no specifier
browser |  | /w/b.js; /w/c.js; /w/s/a.js; /w/s/b.js; /w/package.json {"browser": {"./b.js": "./c.js"}} | /w/s/a.js ./b.js = /w/s/b.js | /w/s/b.js | /w/s/package.json /w/package.json read:/w/package.json /w/b.js /w/c.js /w/s/a.js /w/s/b.js canon:/w/s/b.js
# a key without a dot is no file
browser |  | /w/a.js; /w/b.js; /w/c.js; /w/package.json {"browser": {"b.js": "./c.js"}} | /w/a.js ./b.js = /w/b.js | /w/b.js | /w/package.json read:/w/package.json /w/c.js /w/a.js /w/b.js canon:/w/b.js
# it is a specifier, also beside a file of that name
browser |  | /w/s/a.js; /w/s/b.js; /w/s/c.js; /w/s/package.json {"browser": {"b.js": "./c.js"}} | /w/s/a.js b.js = /w/s/c.js | /w/s/c.js | /w/b.js /w/b.js.ts /w/b.js.tsx /w/b.js.js /w/b.js.jsx /w/b.js.node /w/b.ts /w/b.tsx /w/b.js/index.ts /w/b.js/index.tsx /w/b.js/index.js /w/b.js/index.jsx /w/b.js/index.node /w/s/package.json read:/w/s/package.json /w/s/c.js canon:/w/s/c.js
# a key that starts with two dots is a specifier too
browser |  | /w/b.js; /w/p/a.js; /w/p/package.json {"browser": {"../b.js": false}} | /w/p/a.js ../b.js = custom ../b.js |  | /w/p/package.json read:/w/p/package.json
# so is a name that begins with a dot
browser |  | /w/a.js; /w/package.json {"browser": {".x": false}} | /w/a.js .x = custom .x |  | /w/package.json read:/w/package.json
# a dot alone is the root as an open text, and means no entry
browser |  | /w/a.js; /w/c.js; /w/m.js; /w/index.js; /w/package.json {"main": "./m.js", "browser": {".": "./c.js"}} | /w/a.js ./index = /w/c.js | /w/c.js | /w/package.json read:/w/package.json /w.js /w.ts /w.tsx /w.jsx /w.node /w/index.ts /w/index.tsx /w/index.js /w/c.js /w/a.js canon:/w/c.js
# a text without a dot is searched behind the root
browser |  | /w/a.js; /w/b.js; /w/c.js; /w/package.json {"browser": {"./b.js": "c.js"}} | /w/a.js ./b.js = /w/c.js | /w/c.js | /w/package.json read:/w/package.json /w/b.js /w/c.js /w/a.js canon:/w/c.js
# an absolute one stands alone
browser |  | /w/a.js; /w/b.js; /x/c.js; /w/package.json {"browser": {"./b.js": "/x/c"}} | /w/a.js ./b.js = /x/c.js | /x/c.js | /w/package.json read:/w/package.json /w/b.js /x/c.js /w/a.js canon:/x/c.js
# a text may mean a folder, whose entry is not looked for
browser |  | /w/a.js; /w/b.js; /w/alt/m.js; /w/alt/index.js; /w/package.json {"browser": {"./b.js": "./alt"}}; /w/alt/package.json {"main": "m.js"} | /w/a.js ./b.js = /w/alt/index.js | /w/alt/index.js | /w/package.json read:/w/package.json /w/b.js /w/alt.js /w/alt /w/alt.ts /w/alt.tsx /w/alt.jsx /w/alt.node /w/alt/index.ts /w/alt/index.tsx /w/alt/index.js /w/a.js canon:/w/alt/index.js
# the empty text means the root, as an open text
browser |  | /w/a.js; /w/b.js; /w/index.js; /w/package.json {"browser": {"./b.js": ""}} | /w/a.js ./b.js = /w/index.js | /w/index.js | /w/package.json read:/w/package.json /w/b.js /w.js /w.ts /w.tsx /w.jsx /w.node /w/index.ts /w/index.tsx /w/index.js /w/a.js canon:/w/index.js"#
}

#[test]
fn keys_and_texts_mean_what_the_order_has(rt: HostRuntime) -> Result<(), Fail> {
    rows_come(&rt, rt.alloc(), keys_and_texts())
}

// Which rule counts, for what, and by which name its file is told.
fn rules() -> &'static str {
    r#"# a text whose place is nothing gives no rule
browser |  | /w/a.js; /w/b.js; /w/package.json {"browser": {"./b.js": "./gone"}} | /w/a.js ./b.js = /w/b.js | /w/b.js | /w/package.json read:/w/package.json /w/b.js /w/gone.js /w/gone /w/gone.ts /w/gone.tsx /w/gone.jsx /w/gone.node /w/gone/index.ts /w/gone/index.tsx /w/gone/index.js /w/gone/index.jsx /w/gone/index.node /w/a.js canon:/w/b.js
# nor does it take an earlier rule back
browser |  | /w/a.js; /w/b.js; /w/c.js; /w/package.json {"browser": {"./b": "./c.js", "./b.js": "./gone"}} | /w/a.js ./b.js = /w/c.js | /w/c.js | /w/package.json read:/w/package.json /w/b.js /w/c.js /w/gone.js /w/gone /w/gone.ts /w/gone.tsx /w/gone.jsx /w/gone.node /w/gone/index.ts /w/gone/index.tsx /w/gone/index.js /w/gone/index.jsx /w/gone/index.node /w/a.js canon:/w/c.js
# true says nothing, and nothing is asked for it
browser |  | /w/a.js; /w/b.js; /w/package.json {"browser": {"./b.js": true, "./gone": true}} | /w/a.js ./b.js = /w/b.js | /w/b.js | /w/package.json read:/w/package.json /w/a.js /w/b.js canon:/w/b.js
# an ignored file stays ignored behind an earlier rule
browser |  | /w/a.js; /w/b.js; /w/c.js; /w/package.json {"browser": {"./b": "./c.js", "./b.js": false}} | /w/a.js ./b.js = custom /w/b.js |  | /w/package.json read:/w/package.json /w/b.js /w/c.js /w/a.js
# and before a later one, which is read all the same
browser |  | /w/a.js; /w/b.js; /w/c.js; /w/package.json {"browser": {"./b": false, "./b.js": "./c.js"}} | /w/a.js ./b.js = custom /w/b.js |  | /w/package.json read:/w/package.json /w/b.js /w/c.js /w/a.js
# of two files the later key decides, by its bytes and not by its place in the map
browser |  | /w/a.js; /w/b.js; /w/c.js; /w/d.js; /w/package.json {"browser": {"./b.js": "./d.js", "./b": "./c.js"}} | /w/a.js ./b.js = /w/d.js | /w/d.js | /w/package.json read:/w/package.json /w/b.js /w/c.js /w/d.js /w/a.js canon:/w/d.js
# what stands for a file is not looked up again
browser |  | /w/a.js; /w/b.js; /w/c.js; /w/d.js; /w/package.json {"browser": {"./b.js": "./c.js", "./c.js": "./d.js"}} | /w/a.js ./b.js = /w/c.js | /w/c.js | /w/package.json read:/w/package.json /w/b.js /w/c.js /w/d.js /w/a.js canon:/w/c.js
# nor is what stands for a specifier
browser |  | /w/a.js; /w/c.js; /w/package.json {"browser": {"./c.js": false, "x": "./c.js"}} | /w/a.js x = /w/c.js | /w/c.js | /w/x.js /w/x /w/x.ts /w/x.tsx /w/x.jsx /w/x.node /w/x/index.ts /w/x/index.tsx /w/x/index.js /w/x/index.jsx /w/x/index.node /w/package.json read:/w/package.json /w/c.js canon:/w/c.js
# an importer that is a folder is no root of its own
browser |  | /w/c.js; /w/package.json {"browser": {"x": "./c.js"}}; /w/p/package.json {"browser": {"x": false}} | /w/p x = /w/c.js | /w/c.js | /w/x.js /w/x /w/x.ts /w/x.tsx /w/x.jsx /w/x.node /w/x/index.ts /w/x/index.tsx /w/x/index.js /w/x/index.jsx /w/x/index.node /w/package.json read:/w/package.json /w/c.js canon:/w/c.js
# an importer that is nowhere has rules too
browser |  | /w/package.json {"browser": {"x": false}} | no/where.js x = custom x |  | /w/x.js /w/x /w/x.ts /w/x.tsx /w/x.jsx /w/x.node /w/x/index.ts /w/x/index.tsx /w/x/index.js /w/x/index.jsx /w/x/index.node /w/no/package.json /w/package.json read:/w/package.json
# rules that say nothing of the specifier are read, and a file has those of its own package
browser |  | /w/b.js; /w/c.js; /w/p/a.js; /w/package.json {"browser": {"./b.js": "./c.js"}}; /w/p/package.json {"browser": {"./../b.js": false}} | /w/p/a.js ../b.js = /w/c.js | /w/c.js | /w/p/package.json read:/w/p/package.json /w/b.js /w/p/a.js /w/package.json read:/w/package.json /w/c.js canon:/w/c.js
# the file of a package in node_modules, by that package
browser |  | /w/a.js; /w/node_modules/q/lib.js; /w/node_modules/q/package.json {"main": "lib.js", "browser": {"./lib.js": false}} | /w/a.js q = custom /w/node_modules/q/lib.js |  | /w/q.js /w/q /w/q.ts /w/q.tsx /w/q.jsx /w/q.node /w/q/index.ts /w/q/index.tsx /w/q/index.js /w/q/index.jsx /w/q/index.node /w/package.json /package.json /w/a.js dir:/w/node_modules /w/node_modules/q.js /w/node_modules/q /w/node_modules/q.ts /w/node_modules/q.tsx /w/node_modules/q.jsx /w/node_modules/q.node /w/node_modules/q/package.json read:/w/node_modules/q/package.json /w/node_modules/q/lib.js
# a file that the first look finds has no rules
browser |  | /w/a.js; /w/b.js; /w/c.js; /w/package.json {"browser": {"./b.js": "./c.js", "b.js": false}} | /w/a.js b.js = /w/b.js | /w/b.js | /w/b.js canon:/w/b.js
# a rule is about the specifier as it is written
browser | x:./b.js | /w/a.js; /w/b.js; /w/package.json {"browser": {"x": false}} | /w/a.js x = custom x |  | /w/x.js /w/x /w/x.ts /w/x.tsx /w/x.jsx /w/x.node /w/x/index.ts /w/x/index.tsx /w/x/index.js /w/x/index.jsx /w/x/index.node /w/package.json read:/w/package.json
# and not about its alias
browser | x:y | /w/a.js; /w/node_modules/y.js; /w/package.json {"browser": {"y": false}} | /w/a.js x = /w/node_modules/y.js | /w/node_modules/y.js | /w/x.js /w/x /w/x.ts /w/x.tsx /w/x.jsx /w/x.node /w/x/index.ts /w/x/index.tsx /w/x/index.js /w/x/index.jsx /w/x/index.node /w/package.json read:/w/package.json /w/a.js dir:/w/node_modules /w/node_modules/y.js /w/node_modules/package.json canon:/w/node_modules/y.js
# a builtin module, ignored
browser |  | /w/a.js; /w/package.json {"browser": {"fs": false}} | /w/a.js fs = custom fs |  | /w/fs.js /w/fs /w/fs.ts /w/fs.tsx /w/fs.jsx /w/fs.node /w/fs/index.ts /w/fs/index.tsx /w/fs/index.js /w/fs/index.jsx /w/fs/index.node /w/package.json read:/w/package.json
# without a rule its name is like any other
browser |  | /w/a.js; /w/node_modules/fs/index.js | /w/a.js fs = /w/node_modules/fs/index.js | /w/node_modules/fs/index.js | /w/fs.js /w/fs /w/fs.ts /w/fs.tsx /w/fs.jsx /w/fs.node /w/fs/index.ts /w/fs/index.tsx /w/fs/index.js /w/fs/index.jsx /w/fs/index.node /w/package.json /package.json /w/a.js dir:/w/node_modules /w/node_modules/fs.js /w/node_modules/fs /w/node_modules/fs.ts /w/node_modules/fs.tsx /w/node_modules/fs.jsx /w/node_modules/fs.node /w/node_modules/fs/package.json /w/node_modules/fs/index.ts /w/node_modules/fs/index.tsx /w/node_modules/fs/index.js /w/node_modules/package.json canon:/w/node_modules/fs/index.js
# so is one with Node's scheme
browser |  | /w/a.js | /w/a.js node:fs = nothing node:fs |  | /w/node:fs.js /w/node:fs /w/node:fs.ts /w/node:fs.tsx /w/node:fs.jsx /w/node:fs.node /w/node:fs/index.ts /w/node:fs/index.tsx /w/node:fs/index.js /w/node:fs/index.jsx /w/node:fs/index.node /w/package.json /package.json /w/a.js dir:/w/node_modules dir:/node_modules
# where links are preserved, what stands for a file is told from the working folder
browser-links |  | /w/a.js; /w/b.js; /w/lib/c.js; /w/package.json {"browser": {"./b.js": "./lib/c.js"}} | /w/a.js ./b.js = lib/c.js | /w/lib/c.js | /w/package.json read:/w/package.json /w/b.js /w/lib/c.js /w/a.js
# but by its path where it lies elsewhere
browser-links |  | /w/a.js; /w/b.js; /c.js; /w/package.json {"browser": {"./b.js": "../c.js"}} | a.js ./b.js = /c.js | /c.js | /w/package.json read:/w/package.json /w/b.js /c.js /w/a.js
# an absolute target, likewise
browser-links | ./x:/w/b.js | /w/a.js; /w/b.js; /w/c.js; /w/package.json {"browser": {"./b.js": "./c.js"}} | /w/a.js ./x = c.js | /w/c.js | /w/package.json read:/w/package.json /w/b.js /w/c.js
# what stands for a specifier, below the working folder
browser-links |  | /w/a.js; /w/lib/c.js; /w/package.json {"browser": {"./x": "./lib/c.js"}} | /w/a.js ./x = lib/c.js | /w/lib/c.js | /w/package.json read:/w/package.json /w/x.js /w/x /w/x.ts /w/x.tsx /w/x.jsx /w/x.node /w/x/index.ts /w/x/index.tsx /w/x/index.js /w/x/index.jsx /w/x/index.node /w/lib/c.js
# and elsewhere
browser-links |  | /w/a.js; /c.js; /w/package.json {"browser": {"./x": "../c.js"}} | a.js ./x = /c.js | /c.js | /w/package.json read:/w/package.json /w/x.js /w/x /w/x.ts /w/x.tsx /w/x.jsx /w/x.node /w/x/index.ts /w/x/index.tsx /w/x/index.js /w/x/index.jsx /w/x/index.node /c.js
# without a rule the row decides
browser-links |  | /w/a.js; /w/b.js; /w/package.json {"browser": {"./z.js": true}} | /w/a.js ./b.js = /w/b.js | /w/b.js | /w/package.json read:/w/package.json /w/a.js /w/b.js"#
}

#[test]
fn rules_count_as_the_order_has_them(rt: HostRuntime) -> Result<(), Fail> {
    rows_come(&rt, rt.alloc(), rules())
}

// Rules, what they say of a specifier, and what they leave of a location.
fn calls() -> &'static str {
    r#"# the rules of a folder, in the byte order of their keys
browser |  | /w/b.js; /w/c.js; /w/package.json {"browser": {"x": "c", "./b.js": false}} | rules_at: /w = (file /w/b.js is ignored)(specifier x is /w/c.js) | read:/w/package.json /w/b.js /w/c.js
# what they say of a specifier
browser |  | /w/b.js; /w/c.js; /w/package.json {"browser": {"x": "c", "./b.js": false}} | module_rule: a.js x = file /w/c.js | /w/package.json read:/w/package.json /w/b.js /w/c.js
browser |  | /w/b.js; /w/c.js; /w/package.json {"browser": {"x": "c", "./b.js": false}} | module_rule: a.js y = no rule | /w/package.json read:/w/package.json /w/b.js /w/c.js
# a builtin module, ignored
browser |  | /w/package.json {"browser": {"fs": false}} | rules_at: /w = (specifier fs is ignored) | read:/w/package.json
browser |  | /w/package.json {"browser": {"fs": false}} | module_rule: a.js fs = ignored | /w/package.json read:/w/package.json
# the file at a package's location, ignored by the package's own map
browser |  | /p/lib.js; /p/package.json {"main": "lib.js", "browser": {"./lib.js": false}} | resolve_at: /p = ignored /p/lib.js | /p/package.json read:/p/package.json /p/lib.js
# the rules for a file that was found
browser |  | /p/lib.js; /p/package.json {"browser": {"./lib.js": false}} | rewrite_at: /p/lib.js = ignored /p/lib.js | /p/package.json read:/p/package.json /p/lib.js"#
}

#[test]
fn rules_have_calls_of_their_own(rt: HostRuntime) -> Result<(), Fail> {
    rows_come(&rt, rt.alloc(), calls())
}

// Rules hold where nothing is said of the target.
#[test]
fn a_target_is_a_browser_unless_it_is_set(rt: HostRuntime) {
    assert_eq!(rt; TargetEnv::default(), TargetEnv::Browser);
}
