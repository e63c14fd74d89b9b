// Tables of edges, thirty that pass and thirty of each fault, worked out by hand. On each line stand the location of
// the package that binds a name, its package.json (`-` for none), the name, the package that it is bound to, and what
// comes of it.
use crate::audited::{audited, project_of};
use resolve_stack::Project;
use std::alloc::{AllocError, Global};
use std::test::Fail;
use tree_core::MemoryTree;

// Edges that pass.
fn passing() -> &'static str {
    r#"./;{"dependencies":{"a":"^4.17.0"}};a;lodash npm:4.17.20;passes
./;{"dependencies":{"a":"*"}};a;lodash npm:4.17.20;passes
./;{"dependencies":{"a":""}};a;lodash npm:4.17.20;passes
./;{"dependencies":{"a":"4.x"}};a;lodash npm:4.17.20;passes
./;{"dependencies":{"a":">=4 <5"}};a;lodash npm:4.17.20;passes
./;{"dependencies":{"a":"^3 || ^4"}};a;lodash npm:4.17.20;passes
./;{"dependencies":{"a":"4.17.20"}};a;lodash npm:4.17.20;passes
./;{"dependencies":{"a":"v4.17.20"}};a;lodash npm:4.17.20;passes
./;{"dependencies":{"a":"4.0.0 - 4.17"}};a;lodash npm:4.17.20;passes
./;{"dependencies":{"a":"~4.17"}};a;lodash npm:4.17.20;passes
./;{"dependencies":{"a":"<=4.17"}};a;lodash npm:4.17.20;passes
./;{"dependencies":{"a":" ^4 "}};a;lodash npm:4.17.20;passes
./;{"dependencies":{"a":"npm:other@^4"}};a;lodash npm:4.17.20;passes
./;{"dependencies":{"a":"^0.3.0"}};a;zero npm:0.3.1;passes
./;{"dependencies":{"a":"^2.0.0-rc.0"}};a;early npm:2.0.0-rc.1;passes
./;{"dependencies":{"a":"^1"}};a;vee npm:1.0.0;passes
# no range
./;{"dependencies":{"a":"latest"}};a;lodash npm:4.17.20;passes
./;{"dependencies":{"a":"git:^9"}};a;lodash npm:4.17.20;passes
./;{"dependencies":{"a":"workspace:^9"}};a;lodash npm:4.17.20;passes
./;{"dependencies":{"a":"!"}};a;lodash npm:4.17.20;passes
./;{"dependencies":{"b":"^9"}};a;lodash npm:4.17.20;passes
./;{"peerDependencies":{"a":"^9"}};a;lodash npm:4.17.20;passes
./;{"dependencies":{"a":["^9"]}};a;lodash npm:4.17.20;passes
./;[];a;lodash npm:4.17.20;passes
./; ;a;lodash npm:4.17.20;passes
./;-;a;lodash npm:4.17.20;passes
# in an archive nothing is read
./cache/p.zip/p/;{;a;lodash npm:4.17.20;passes
# only npm's packages are held to a range, and those of the workspace need no entry
./;{;a;patched patch:patched@npm%3A1.0.0#fix.patch;passes
./;{"dependencies":{"a":"^9"}};a;forked https://git.example/forked.git#commit=1f;passes
./;{;a;tool virtual:ab#workspace:tool;passes"#
}

// Edges to packages without a row. No package.json is read.
fn not_registered() -> &'static str {
    r#"./;{;a;lodash npm:4.17.21;not in registry
./;-;a;lodash npm:4.17.2;not in registry
./;-;a;lodash npm:4.17.200;not in registry
./;{;a;lodash npm:;not in registry
./;-;a;lodash npm;not in registry
./;-;a;lodash 4.17.20;not in registry
./;{;a;lodash NPM:4.17.20;not in registry
./;-;a;lodash npm:4.17.20#;not in registry
./;-;a;lodash npm:4.17.20::x;not in registry
./;{;a;lodash virtual:ab#npm:4.17.21;not in registry
./;-;a;lodash virtual:cd#npm:4.17.20;not in registry
./;-;a;lodash virtual:npm:4.17.20;not in registry
./;{;a;lodash virtual:ab#;not in registry
./;-;a;lodash ab#npm:4.17.20;not in registry
./;-;a;lodash patch:lodash@npm%3A4.17.20#a.patch;not in registry
./;{;a;lodash workspace:lodash;not in registry
./;-;a;lodash virtual:ab#workspace:lodash;not in registry
./;-;a;Lodash npm:4.17.20;not in registry
./;{;a;lodas npm:4.17.20;not in registry
./;-;a;lodash2 npm:4.17.20;not in registry
./;-;a;@scope/lodash npm:4.17.20;not in registry
./;{;a;kit npm:4.17.20;not in registry
./;-;a;app npm:4.17.20;not in registry
./;-;a;@scope/kit npm:1.2.4;not in registry
./;{;a;scope/kit npm:1.2.3;not in registry
./;-;a;@Scope/kit npm:1.2.3;not in registry
./;-;a;app workspace:;not in registry
./;{;a;app workspace:app;not in registry
./;-;a; workspace:.;not in registry
./;-;a;app ;not in registry"#
}

// Edges to packages that no entry names. No package.json is read.
fn not_locked() -> &'static str {
    r#"./;{;a;lodash npm:4.17.22;not locked
./cache/p.zip/p/;{;a;lodash npm:4.17.2;not locked
./__virtual__/p-ab/0/p/;{;a;lodash npm:4.17.200;not locked
./;-;a;lodash npm:;not locked
./cache/p.zip/p/;-;a;lodash npm;not locked
./__virtual__/p-ab/0/p/;-;a;lodash 4.17.20;not locked
./;{"dependencies":{"a":"*"}};a;lodash NPM:4.17.20;not locked
./cache/p.zip/p/;{"dependencies":{"a":"*"}};a;lodash npm:4.17.20#;not locked
./__virtual__/p-ab/0/p/;{"dependencies":{"a":"*"}};a;lodash npm:4.17.20::x;not locked
./;{;a;lodash virtual:ab#npm:4.17.22;not locked
./cache/p.zip/p/;{;a;lodash virtual:npm:4.17.20;not locked
./__virtual__/p-ab/0/p/;{;a;lodash virtual:;not locked
./;-;a;lodash virtual:ab#virtual:cd#npm:4.17.20;not locked
./cache/p.zip/p/;-;a;lodash Virtual:ab#npm:4.17.20;not locked
./__virtual__/p-ab/0/p/;-;a;lodash ab#npm:4.17.20;not locked
./;{"dependencies":{"a":"*"}};a;lodash Workspace:lodash;not locked
./cache/p.zip/p/;{"dependencies":{"a":"*"}};a;lodash portal:../lodash;not locked
./__virtual__/p-ab/0/p/;{"dependencies":{"a":"*"}};a;Lodash npm:4.17.20;not locked
./;{;a;lodas npm:4.17.20;not locked
./cache/p.zip/p/;{;a;@scope/lodash npm:4.17.20;not locked
./__virtual__/p-ab/0/p/;{;a;kit npm:1.2.3;not locked
./;-;a;scope/kit npm:1.2.3;not locked
./cache/p.zip/p/;-;a;bare npm:7.0.0;not locked
./__virtual__/p-ab/0/p/;-;a;bare ;not locked
./;{"dependencies":{"a":"*"}};a;twice npm:2.0.0;not locked
./cache/p.zip/p/;{"dependencies":{"a":"*"}};a;odd npm:latest;not locked
./__virtual__/p-ab/0/p/;{"dependencies":{"a":"*"}};a;vee npm:v1.0.0;not locked
./;{;a;patched patch:patched@npm%3A1.0.0#other.patch;not locked
./cache/p.zip/p/;{;a;patched npm:1.0.0;not locked
./__virtual__/p-ab/0/p/;{;a;forked https://git.example/forked.git;not locked"#
}

// Edges of packages whose package.json is none.
fn malformed() -> &'static str {
    r#"./;{;a;lodash npm:4.17.20;malformed /w/package.json
./__virtual__/p-ab/0/p/;[;a;lodash virtual:ab#npm:4.17.20;malformed /w/p/package.json
./p/;};a;lodash npm:4.17.20;malformed /w/p/package.json
./;{"a":1,};a;lodash virtual:ab#npm:4.17.20;malformed /w/package.json
./__virtual__/p-ab/0/p/;[1,];a;lodash npm:4.17.20;malformed /w/p/package.json
./p/;{,};a;lodash virtual:ab#npm:4.17.20;malformed /w/p/package.json
./;{'a':1};a;lodash npm:4.17.20;malformed /w/package.json
./__virtual__/p-ab/0/p/;{a:1};a;lodash virtual:ab#npm:4.17.20;malformed /w/p/package.json
./p/;{"a" 1};a;lodash npm:4.17.20;malformed /w/p/package.json
./;{"a":};a;lodash virtual:ab#npm:4.17.20;malformed /w/package.json
./__virtual__/p-ab/0/p/;{"a":1 "b":2};a;lodash npm:4.17.20;malformed /w/p/package.json
./p/;{"a":1}};a;lodash virtual:ab#npm:4.17.20;malformed /w/p/package.json
./;{} {};a;lodash npm:4.17.20;malformed /w/package.json
./__virtual__/p-ab/0/p/;// a;a;lodash virtual:ab#npm:4.17.20;malformed /w/p/package.json
./p/;";a;lodash npm:4.17.20;malformed /w/p/package.json
./;{"a":"};a;lodash virtual:ab#npm:4.17.20;malformed /w/package.json
./__virtual__/p-ab/0/p/;{"a":"\x"};a;lodash npm:4.17.20;malformed /w/p/package.json
./p/;{"a":"\u12"};a;lodash virtual:ab#npm:4.17.20;malformed /w/p/package.json
./;{"a":01};a;lodash npm:4.17.20;malformed /w/package.json
./__virtual__/p-ab/0/p/;{"a":+1};a;lodash virtual:ab#npm:4.17.20;malformed /w/p/package.json
./p/;{"a":.5};a;lodash npm:4.17.20;malformed /w/p/package.json
./;{"a":1.};a;lodash virtual:ab#npm:4.17.20;malformed /w/package.json
./__virtual__/p-ab/0/p/;{"a":nul};a;lodash npm:4.17.20;malformed /w/p/package.json
./p/;{"a":True};a;lodash virtual:ab#npm:4.17.20;malformed /w/p/package.json
./;{"a":NaN};a;lodash npm:4.17.20;malformed /w/package.json
# a number that is no whole one
./__virtual__/p-ab/0/p/;{"a":1.5};a;lodash virtual:ab#npm:4.17.20;malformed /w/p/package.json
./p/;[[0.5]];a;lodash npm:4.17.20;malformed /w/p/package.json
./;{"dependencies":{"a":1e2}};a;lodash virtual:ab#npm:4.17.20;malformed /w/package.json
# keys of two kinds in exports
./__virtual__/p-ab/0/p/;{"exports":{".":"./a.js","import":"./b.js"}};a;lodash npm:4.17.20;malformed /w/p/package.json
./p/;{"exports":{"import":"./b.js","./a":"./a.js"}};a;lodash virtual:ab#npm:4.17.20;malformed /w/p/package.json"#
}

// Edges to packages whose locked version is out of the range that is declared.
fn out_of_range() -> &'static str {
    r#"./;{"dependencies":{"a":"^4.17.21"}};a;lodash npm:4.17.20;4.17.20 out of [^4.17.21]
./__virtual__/p-ab/0/p/;{"dependencies":{"a":"^3"}};a;lodash virtual:ab#npm:4.17.20;4.17.20 out of [^3]
./p/;{"dependencies":{"a":"~4.16.0"}};a;lodash npm:4.17.20;4.17.20 out of [~4.16.0]
./;{"dependencies":{"a":"4.17.19"}};a;lodash virtual:ab#npm:4.17.20;4.17.20 out of [4.17.19]
./__virtual__/p-ab/0/p/;{"dependencies":{"a":"=4.17.21"}};a;lodash npm:4.17.20;4.17.20 out of [=4.17.21]
./p/;{"dependencies":{"a":">4.17.20"}};a;lodash virtual:ab#npm:4.17.20;4.17.20 out of [>4.17.20]
./;{"dependencies":{"a":">=4.18"}};a;lodash npm:4.17.20;4.17.20 out of [>=4.18]
./__virtual__/p-ab/0/p/;{"dependencies":{"a":"<4.17.20"}};a;lodash virtual:ab#npm:4.17.20;4.17.20 out of [<4.17.20]
./p/;{"dependencies":{"a":"<=4.17.19"}};a;lodash npm:4.17.20;4.17.20 out of [<=4.17.19]
./;{"dependencies":{"a":"4.16.x"}};a;lodash virtual:ab#npm:4.17.20;4.17.20 out of [4.16.x]
./__virtual__/p-ab/0/p/;{"dependencies":{"a":"3"}};a;lodash npm:4.17.20;4.17.20 out of [3]
./p/;{"dependencies":{"a":"3 - 4.16"}};a;lodash virtual:ab#npm:4.17.20;4.17.20 out of [3 - 4.16]
./;{"dependencies":{"a":"1.0.0 - 2.0.0"}};a;lodash npm:4.17.20;4.17.20 out of [1.0.0 - 2.0.0]
./__virtual__/p-ab/0/p/;{"dependencies":{"a":"^1 || ^2"}};a;lodash virtual:ab#npm:4.17.20;4.17.20 out of [^1 || ^2]
./p/;{"dependencies":{"a":">=1.0.0 <4.17.0"}};a;lodash npm:4.17.20;4.17.20 out of [>=1.0.0 <4.17.0]
./;{"dependencies":{"a":">4"}};a;lodash virtual:ab#npm:4.17.20;4.17.20 out of [>4]
./__virtual__/p-ab/0/p/;{"dependencies":{"a":"<4"}};a;lodash npm:4.17.20;4.17.20 out of [<4]
./p/;{"dependencies":{"a":">*"}};a;lodash virtual:ab#npm:4.17.20;4.17.20 out of [>*]
./;{"dependencies":{"a":"^0.2.0"}};a;zero npm:0.3.1;0.3.1 out of [^0.2.0]
./;{"dependencies":{"a":"^0.3.2"}};a;zero npm:0.3.1;0.3.1 out of [^0.3.2]
./;{"dependencies":{"a":" ~1.2.4 "}};a;@scope/kit npm:1.2.3;1.2.3 out of [ ~1.2.4 ]
./;{"dependencies":{"a":"*"}};a;early npm:2.0.0-rc.1;2.0.0-rc.1 out of [*]
./;{"dependencies":{"a":">=1.0.0"}};a;early npm:2.0.0-rc.1;2.0.0-rc.1 out of [>=1.0.0]
./;{"dependencies":{"a":"^2.0.0-rc.2"}};a;early npm:2.0.0-rc.1;2.0.0-rc.1 out of [^2.0.0-rc.2]
./;{"dependencies":{"a":"^2"}};a;twice npm:1.0.0;1.0.0 out of [^2]
./;{"dependencies":{"a":"*"}};a;odd npm:1.0.0;latest out of [*]
./;{"dependencies":{"a":"^1.1.0"}};a;vee npm:1.0.0;v1.0.0 out of [^1.1.0]
# of another name, among the developers', and where both have it
./;{"dependencies":{"a":"npm:other@^5"}};a;lodash npm:4.17.20;4.17.20 out of [^5]
./;{"devDependencies":{"a":"^5"}};a;lodash npm:4.17.20;4.17.20 out of [^5]
./;{"dependencies":{"a":"^5"},"devDependencies":{"a":"^4"}};a;lodash npm:4.17.20;4.17.20 out of [^5]"#
}

fn lock() -> &'static str {
    r#"# by hand
# for the tests

__metadata:
  version: 6

"lodash@npm:^4.17.0":
  version: 4.17.20
  resolution: "lodash@npm:4.17.20"

"lodash@npm:^4.17.21":
  version: 4.17.21
  resolution: "lodash@npm:4.17.21"

"zero@npm:^0.3.0":
  version: 0.3.1
  resolution: "zero@npm:0.3.1"

"early@npm:^2.0.0-0":
  version: 2.0.0-rc.1
  resolution: "early@npm:2.0.0-rc.1"

"@scope/kit@npm:^1.0.0":
  version: 1.2.3
  resolution: "@scope/kit@npm:1.2.3"

"twice@npm:^1.0.0":
  version: 1.0.0
  resolution: "twice@npm:1.0.0"

"twice@npm:1.0.0":
  version: 2.0.0
  resolution: "twice@npm:1.0.0"

"odd@npm:*":
  version: latest
  resolution: "odd@npm:1.0.0"

"vee@npm:*":
  version: v1.0.0
  resolution: "vee@npm:1.0.0"

"bare@npm:^7.0.0":
  version: 7.0.0

"patched@patch:patched@npm%3A1.0.0#fix.patch":
  version: 1.0.0
  resolution: "patched@patch:patched@npm%3A1.0.0#fix.patch"

"forked@https://git.example/forked.git":
  version: 1.0.0
  resolution: "forked@https://git.example/forked.git#commit=1f"
"#
}

// The rows of a manifest in which some packages stand.
fn some_rows() -> &'static str {
    r#"["lodash",[["npm:4.17.20",{"packageLocation":"./lodash/","packageDependencies":[]}],["virtual:ab#npm:4.17.20",{"packageLocation":"./__virtual__/lodash-ab/0/lodash/","packageDependencies":[]}]]],["@scope/kit",[["npm:1.2.3",{"packageLocation":"./kit/","packageDependencies":[]}]]],["app",[["workspace:.",{"packageLocation":"./app/","packageDependencies":[]}]]]"#
}

// Which packages have rows besides the one that binds a name: some, or the one that it is bound to.
#[derive(Clone, Copy, Debug)]
enum Registered {
    Some,
    Bound,
}

// A line of a table.
#[derive(Clone, Copy)]
struct Edge<'e> {
    location: &'e str,
    package_json: &'e str,
    name: &'e str,
    bound: (&'e str, &'e str),
    told: &'e str,
}

fn edge_of(line: &str) -> Result<Edge<'_>, Fail> {
    let (location, rest) = line.split_once(';').ok_or("no location")?;
    let (package_json, rest) = rest.split_once(';').ok_or("no package.json")?;
    let (name, rest) = rest.split_once(';').ok_or("no name")?;
    let (bound, told) = rest.split_once(';').ok_or("no outcome")?;
    let bound = bound.split_once(' ').ok_or("no reference")?;
    Ok(Edge {
        location,
        package_json,
        name,
        bound,
        told,
    })
}

// A manifest in which the package at the location binds the name.
fn manifest_of(
    alloc: Global,
    registered: Registered,
    edge: &Edge<'_>,
) -> Result<String, AllocError> {
    let rows = rows_of(alloc, registered, edge)?;
    let Edge { location, name, .. } = edge;
    let (bound, reference) = edge.bound;
    let front = r#"const RAW_RUNTIME_STATE =
'{"dependencyTreeRoots":[],"enableTopLevelFallback":false,"ignorePatternData":null,"fallbackExclusionList":[],"fallbackPool":[],"packageRegistryData":[[null,[[null,{"packageLocation":"./top/","packageDependencies":[]}]]],["asks",[["npm:0.0.0",{"packageLocation":""#;
    format!(in alloc;
        "{front}{location}\",\"packageDependencies\":[[\"{name}\",[\"{bound}\",\"{reference}\"]]]}}]]],{rows}]}}';\n"
    )
}

fn rows_of(alloc: Global, registered: Registered, edge: &Edge<'_>) -> Result<String, AllocError> {
    let Registered::Bound = registered else {
        return String::from_str(alloc, some_rows());
    };
    let (bound, reference) = edge.bound;
    let back = r#"{"packageLocation":"./bound/","packageDependencies":[]}]]]"#;
    format!(in alloc; "[\"{bound}\",[[\"{reference}\",{back}")
}

// The package.json lies where a location may lead, also in an archive.
fn tree_of(alloc: Global, registered: Registered, edge: &Edge<'_>) -> Result<MemoryTree, Fail> {
    let mut tree = MemoryTree::new(alloc);
    let manifest = manifest_of(alloc, registered, edge)?;
    put(&mut tree, "/w/.pnp.cjs", manifest.as_str())?;
    if edge.package_json != "-" {
        put(&mut tree, "/w/package.json", edge.package_json)?;
        put(&mut tree, "/w/p/package.json", edge.package_json)?;
        put(
            &mut tree,
            "/w/cache/p.zip/p/package.json",
            edge.package_json,
        )?;
    }
    Ok(tree)
}

fn put(tree: &mut MemoryTree, path: &str, text: &str) -> Result<(), Fail> {
    Ok(tree.put(path, text.as_bytes(), path)?)
}

// What an audit of the edge alone is to find.
fn wanted(alloc: Global, edge: &Edge<'_>) -> Result<String, AllocError> {
    let Edge { name, told, .. } = edge;
    if *told == "passes" {
        return String::from_str(alloc, "1 bindings");
    }
    let (bound, reference) = edge.bound;
    format!(in alloc; "asks@npm:0.0.0 binds {name} to {bound}@{reference}: {told}\n1 bindings")
}

fn comes_to(
    alloc: Global,
    project: &Project<'_>,
    registered: Registered,
    line: &str,
) -> Result<bool, Fail> {
    let edge = edge_of(line)?;
    let mut tree = tree_of(alloc, registered, &edge)?;
    let found = audited(alloc, &mut tree, project)?;
    Ok(found == wanted(alloc, &edge)?)
}

// How many lines come to what they say; the first that doesn't ends it.
fn edges_that_come(alloc: Global, registered: Registered, lines: &str) -> Result<u8, Fail> {
    let project = project_of(alloc, lock())?;
    let mut tried = 0u8;
    for line in lines.lines() {
        if line.starts_with('#') {
            continue;
        }
        if !comes_to(alloc, &project, registered, line)? {
            return Ok(tried);
        }
        tried = tried.saturating_add(1);
    }
    Ok(tried)
}

#[test]
fn edges_pass(rt: HostRuntime) -> Result<(), Fail> {
    assert_eq!(rt;
        edges_that_come(rt.alloc(), Registered::Bound, passing())?,
        30
    );
    Ok(())
}

#[test]
fn edges_lead_to_no_row(rt: HostRuntime) -> Result<(), Fail> {
    assert_eq!(rt;
        edges_that_come(rt.alloc(), Registered::Some, not_registered())?,
        30
    );
    Ok(())
}

#[test]
fn edges_lead_to_no_entry(rt: HostRuntime) -> Result<(), Fail> {
    assert_eq!(rt;
        edges_that_come(rt.alloc(), Registered::Bound, not_locked())?,
        30
    );
    Ok(())
}

#[test]
fn edges_come_from_malformed_packages(rt: HostRuntime) -> Result<(), Fail> {
    assert_eq!(rt;
        edges_that_come(rt.alloc(), Registered::Bound, malformed())?,
        30
    );
    Ok(())
}

#[test]
fn edges_are_out_of_range(rt: HostRuntime) -> Result<(), Fail> {
    assert_eq!(rt;
        edges_that_come(rt.alloc(), Registered::Bound, out_of_range())?,
        30
    );
    Ok(())
}
