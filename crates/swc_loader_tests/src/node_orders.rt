// Requests by the node rows, worked out by hand from docs/ORDER.md, and the calls for parts of them.
use crate::rows::rows_come;
use std::test::Fail;

// Requests in the project that `rows.rt` has: what each comes to, the file that was found, if any, and its questions in
// order.
fn requests() -> &'static str {
    r#"# relative targets, from a file and from a folder
node |  | project | /w/main.js ./lib/part = /real/part.ts | /w/lib/part.ts | /w/main.js /w/lib/part.js /w/lib/part /w/lib/part.ts canon:/w/lib/part.ts
node |  | project | /w/main.js ./lib/part.js = /real/part.ts | /w/lib/part.ts | /w/main.js /w/lib/part.js /w/lib/part.js.ts /w/lib/part.js.tsx /w/lib/part.js.js /w/lib/part.js.jsx /w/lib/part.js.node /w/lib/part.ts canon:/w/lib/part.ts
node |  | project | /w/lib ./part = /real/part.ts | /w/lib/part.ts | /w/lib /w/lib/part.js /w/lib/part /w/lib/part.ts canon:/w/lib/part.ts
node |  | project | lib/part.ts ../both = /w/both.js | /w/both.js | /w/lib/part.ts /w/both.js canon:/w/both.js
node |  | project | /w/main.js ./lib = /w/lib/index.js | /w/lib/index.js | /w/main.js /w/lib.js /w/lib /w/lib.ts /w/lib.tsx /w/lib.jsx /w/lib.node /w/lib/package.json /w/lib/index.ts /w/lib/index.tsx /w/lib/index.js canon:/w/lib/index.js
# a file goes before the folder, also with a slash behind it
node |  | project | /w/main.js ./both/ = /w/both.js | /w/both.js | /w/main.js /w/both.js canon:/w/both.js
# two dots have no file candidates
node |  | project | /w/lib/part.ts .. = nothing .. |  | /w/lib/part.ts /w/package.json /w/index.ts /w/index.tsx /w/index.js /w/index.jsx /w/index.node
# an entry
node |  | project | /w/main.js ./pkg = /w/pkg/m.ts | /w/pkg/m.ts | /w/main.js /w/pkg.js /w/pkg /w/pkg.ts /w/pkg.tsx /w/pkg.jsx /w/pkg.node /w/pkg/package.json read:/w/pkg/package.json /w/pkg/m.js /w/pkg/m /w/pkg/m.ts canon:/w/pkg/m.ts
node |  | project | /w/main.js ./none = nothing ./none |  | /w/main.js /w/none.js /w/none /w/none.ts /w/none.tsx /w/none.jsx /w/none.node /w/none/package.json /w/none/index.ts /w/none/index.tsx /w/none/index.js /w/none/index.jsx /w/none/index.node
# a malformed package.json is refused behind the base folder
node |  | project | /w/main.js ./bad = malformed /w/bad/package.json |  | /w/main.js /w/bad.js /w/bad /w/bad.ts /w/bad.tsx /w/bad.jsx /w/bad.node /w/bad/package.json read:/w/bad/package.json
# the first look is put before the base is looked at, and reads no package.json
node |  | project | - /w/main = /w/main.js | /w/main.js | /w/main.js canon:/w/main.js
node |  | project | - main = /w/main.js | /w/main.js | /w/main.js canon:/w/main.js
node |  | project | /w/main.js /w/bad = /w/bad/index.js | /w/bad/index.js | /w/bad.js /w/bad /w/bad.ts /w/bad.tsx /w/bad.jsx /w/bad.node /w/bad/index.ts /w/bad/index.tsx /w/bad/index.js canon:/w/bad/index.js
# an absolute target asks for no base folder
node |  | project | /w/main.js /w/pkg = /w/pkg/m.ts | /w/pkg/m.ts | /w/pkg.js /w/pkg /w/pkg.ts /w/pkg.tsx /w/pkg.jsx /w/pkg.node /w/pkg/index.ts /w/pkg/index.tsx /w/pkg/index.js /w/pkg/index.jsx /w/pkg/index.node /w/pkg/package.json read:/w/pkg/package.json /w/pkg/m.js /w/pkg/m /w/pkg/m.ts canon:/w/pkg/m.ts
node |  | project | /w/main.js /w/odd = malformed /w/odd/package.json |  | /w/odd.js /w/odd /w/odd.ts /w/odd.tsx /w/odd.jsx /w/odd.node /w/odd/index.ts /w/odd/index.tsx /w/odd/index.js /w/odd/index.jsx /w/odd/index.node /w/odd/package.json read:/w/odd/package.json
# bases that are no path
node |  | project | - ./main = no path |  |
node |  | project | <stdin> x = no path |  | /w/x.js /w/x /w/x.ts /w/x.tsx /w/x.jsx /w/x.node /w/x/index.ts /w/x/index.tsx /w/x/index.js /w/x/index.jsx /w/x/index.node
# builtin modules, behind the first look
node |  | project | /w/main.js fs = custom node:fs |  | /w/fs.js /w/fs /w/fs.ts /w/fs.tsx /w/fs.jsx /w/fs.node /w/fs/index.ts /w/fs/index.tsx /w/fs/index.js /w/fs/index.jsx /w/fs/index.node
node |  | project | /w/main.js node:x = custom node:x |  | /w/node:x.js /w/node:x /w/node:x.ts /w/node:x.tsx /w/node:x.jsx /w/node:x.node /w/node:x/index.ts /w/node:x/index.tsx /w/node:x/index.js /w/node:x/index.jsx /w/node:x/index.node
node | fs:./both | project | /w/main.js fs = custom node:fs |  | /w/fs.js /w/fs /w/fs.ts /w/fs.tsx /w/fs.jsx /w/fs.node /w/fs/index.ts /w/fs/index.tsx /w/fs/index.js /w/fs/index.jsx /w/fs/index.node
# aliases of whole specifiers
node | q:./both | project | /w/main.js q = /w/both.js | /w/both.js | /w/q.js /w/q /w/q.ts /w/q.tsx /w/q.jsx /w/q.node /w/q/index.ts /w/q/index.tsx /w/q/index.js /w/q/index.jsx /w/q/index.node /w/main.js /w/both.js canon:/w/both.js
node | ./x:/w/both | project | /w/main.js ./x = /w/both.js | /w/both.js | /w/both.js canon:/w/both.js
node | ./x:fs | project | /w/main.js ./x = nothing fs |  | /w/main.js dir:/w/node_modules /w/node_modules/fs.js /w/node_modules/fs /w/node_modules/fs.ts /w/node_modules/fs.tsx /w/node_modules/fs.jsx /w/node_modules/fs.node /w/node_modules/fs/package.json /w/node_modules/fs/index.ts /w/node_modules/fs/index.tsx /w/node_modules/fs/index.js /w/node_modules/fs/index.jsx /w/node_modules/fs/index.node dir:/node_modules /node_modules/fs.js /node_modules/fs /node_modules/fs.ts /node_modules/fs.tsx /node_modules/fs.jsx /node_modules/fs.node /node_modules/fs/package.json /node_modules/fs/index.ts /node_modules/fs/index.tsx /node_modules/fs/index.js /node_modules/fs/index.jsx /node_modules/fs/index.node
# the walk; the entry is searched without entry
node |  | project | /w/main.js q = /w/node_modules/q/lib/index.js | /w/node_modules/q/lib/index.js | /w/q.js /w/q /w/q.ts /w/q.tsx /w/q.jsx /w/q.node /w/q/index.ts /w/q/index.tsx /w/q/index.js /w/q/index.jsx /w/q/index.node /w/main.js dir:/w/node_modules /w/node_modules/q.js /w/node_modules/q /w/node_modules/q.ts /w/node_modules/q.tsx /w/node_modules/q.jsx /w/node_modules/q.node /w/node_modules/q/package.json read:/w/node_modules/q/package.json /w/node_modules/q/lib.js /w/node_modules/q/lib /w/node_modules/q/lib.ts /w/node_modules/q/lib.tsx /w/node_modules/q/lib.jsx /w/node_modules/q/lib.node /w/node_modules/q/lib/index.ts /w/node_modules/q/lib/index.tsx /w/node_modules/q/lib/index.js canon:/w/node_modules/q/lib/index.js
# it passes a malformed package.json over
node |  | project | /w/main.js broken = /node_modules/broken/index.js | /node_modules/broken/index.js | /w/broken.js /w/broken /w/broken.ts /w/broken.tsx /w/broken.jsx /w/broken.node /w/broken/index.ts /w/broken/index.tsx /w/broken/index.js /w/broken/index.jsx /w/broken/index.node /w/main.js dir:/w/node_modules /w/node_modules/broken.js /w/node_modules/broken /w/node_modules/broken.ts /w/node_modules/broken.tsx /w/node_modules/broken.jsx /w/node_modules/broken.node /w/node_modules/broken/package.json read:/w/node_modules/broken/package.json dir:/node_modules /node_modules/broken.js /node_modules/broken /node_modules/broken.ts /node_modules/broken.tsx /node_modules/broken.jsx /node_modules/broken.node /node_modules/broken/package.json /node_modules/broken/index.ts /node_modules/broken/index.tsx /node_modules/broken/index.js canon:/node_modules/broken/index.js
# it begins in the base folder
node |  | project | /w/lib/part.ts near = /w/lib/node_modules/near/index.tsx | /w/lib/node_modules/near/index.tsx | /w/near.js /w/near /w/near.ts /w/near.tsx /w/near.jsx /w/near.node /w/near/index.ts /w/near/index.tsx /w/near/index.js /w/near/index.jsx /w/near/index.node /w/lib/part.ts dir:/w/lib/node_modules /w/lib/node_modules/near.js /w/lib/node_modules/near /w/lib/node_modules/near.ts /w/lib/node_modules/near.tsx /w/lib/node_modules/near.jsx /w/lib/node_modules/near.node /w/lib/node_modules/near/package.json /w/lib/node_modules/near/index.ts /w/lib/node_modules/near/index.tsx canon:/w/lib/node_modules/near/index.tsx
# a folder without node_modules is passed over
node |  | project | /w/pkg/m.ts @s/x/y = /w/node_modules/@s/x/y.js | /w/node_modules/@s/x/y.js | /w/@s/x/y.js /w/@s/x/y /w/@s/x/y.ts /w/@s/x/y.tsx /w/@s/x/y.jsx /w/@s/x/y.node /w/@s/x/y/index.ts /w/@s/x/y/index.tsx /w/@s/x/y/index.js /w/@s/x/y/index.jsx /w/@s/x/y/index.node /w/pkg/m.ts dir:/w/pkg/node_modules dir:/w/node_modules /w/node_modules/@s/x/y.js canon:/w/node_modules/@s/x/y.js
# where it is off, no base folder is asked for
node-alone |  | project | /w/main.js q = nothing q |  | /w/q.js /w/q /w/q.ts /w/q.tsx /w/q.jsx /w/q.node /w/q/index.ts /w/q/index.tsx /w/q/index.js /w/q/index.jsx /w/q/index.node
node-alone |  | project | /w/main.js ./both = /w/both.js | /w/both.js | /w/main.js /w/both.js canon:/w/both.js
# where links are preserved no canonical name is asked for: paths from the working folder
node-links |  | project | main.js ./lib/part = lib/part.ts | /w/lib/part.ts | /w/main.js /w/lib/part.js /w/lib/part /w/lib/part.ts
node-links |  | project | - main = main.js | /w/main.js | /w/main.js
node-links |  | project | /w/main.js broken = ../node_modules/broken/index.js | /node_modules/broken/index.js | /w/broken.js /w/broken /w/broken.ts /w/broken.tsx /w/broken.jsx /w/broken.node /w/broken/index.ts /w/broken/index.tsx /w/broken/index.js /w/broken/index.jsx /w/broken/index.node /w/main.js dir:/w/node_modules /w/node_modules/broken.js /w/node_modules/broken /w/node_modules/broken.ts /w/node_modules/broken.tsx /w/node_modules/broken.jsx /w/node_modules/broken.node /w/node_modules/broken/package.json read:/w/node_modules/broken/package.json dir:/node_modules /node_modules/broken.js /node_modules/broken /node_modules/broken.ts /node_modules/broken.tsx /node_modules/broken.jsx /node_modules/broken.node /node_modules/broken/package.json /node_modules/broken/index.ts /node_modules/broken/index.tsx /node_modules/broken/index.js
# and clean paths
node-links |  | project | /w/main.js ./lib/part = /w/lib/part.ts | /w/lib/part.ts | /w/main.js /w/lib/part.js /w/lib/part /w/lib/part.ts
node-links |  | project | - /w/main = /w/main.js | /w/main.js | /w/main.js
node-links | ./x:/w/both | project | main.js ./x = /w/both.js | /w/both.js | /w/both.js"#
}

#[test]
fn requests_come_to_their_row(rt: HostRuntime) -> Result<(), Fail> {
    rows_come(&rt, rt.alloc(), requests())
}

// The parts of the order have their own calls.
fn calls() -> &'static str {
    r#"# a builtin module is decided before the search, and an alias is no answer
node |  | project | before_search: main.js path = custom node:path |
node | q:./both | project | before_search: main.js q = target ./both |
# the search by a target
node |  | project | search: /w/main.js ./both = /w/both.js | /w/both.js | /w/main.js /w/both.js canon:/w/both.js
# the order from an importer whose path is read
node |  | project | node_order_from: main.js ./both = /w/both.js | /w/both.js | /w/main.js /w/both.js canon:/w/both.js
# the search at a location
node |  | project | resolve_at: pkg m = found /w/pkg/m.ts | /w/pkg/m.js /w/pkg/m /w/pkg/m.ts
# a file is answered by its canonical name
node |  | project | answer_file: lib/part.ts = /real/part.ts | canon:/w/lib/part.ts
node |  | project | answer: lib/part.ts = /real/part.ts | /w/lib/part.ts | canon:/w/lib/part.ts
# what may name a package
is_bare: q = yes
is_bare: @s/x = yes
is_bare:  = yes
is_bare: .q = yes
is_bare: ..q/r = yes
is_bare: . = no
is_bare: ./q = no
is_bare: ../q = no
is_bare: /q = no
# what may name a file itself
is_closed: q = yes
is_closed: ../q.js = yes
is_closed: q/ = no
is_closed: q/. = no
is_closed: q/.. = no
is_closed:  = no
# paths, read from `/w`
to_absolute_path: ./a//b = /w/a/b
to_absolute_path: a/../b/ = /w/b
to_absolute_path: ../x/. = /x
to_absolute_path: /y = /y"#
}

#[test]
fn parts_of_the_order_have_calls(rt: HostRuntime) -> Result<(), Fail> {
    rows_come(&rt, rt.alloc(), calls())
}
