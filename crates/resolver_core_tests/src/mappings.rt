// Mappings over a table: what a request comes to, and the inner requests in order.
use crate::table::{Table, Unknown, ask, table_of, told};
use resolver_core::{TsConfigResolver, TsError, TsRefusal};
use std::alloc::{AllocError, Global};
use std::process::Abort;
use std::test::Fail;
use sugar_path::{List, Text};
use swc_loader::Resolution;

// A request by a mapping over a table. Patterns stand apart by blanks, each with its targets behind a colon.
#[derive(Clone, Copy)]
struct Row<'a> {
    url: &'a str,
    paths: &'a str,
    has: &'a str,
    base: &'a str,
    specifier: &'a str,
}

// A request that is written as `URL | PATTERNS | TABLE | BASE | SPECIFIER`.
fn row_of(given: &str) -> Option<Row<'_>> {
    let (url, behind) = given.split_once(" | ")?;
    let (paths, behind) = behind.split_once(" | ")?;
    let (has, behind) = behind.split_once(" | ")?;
    let (base, specifier) = behind.split_once(" | ")?;
    Some(Row {
        url,
        paths,
        has,
        base,
        specifier,
    })
}

// Requests from a nameless base, by the base folder `.`: what each comes to, and the table's requests in order. Lines
// that begin with
// `#` say what the next ones show.
fn from_nowhere() -> &'static str {
    "# an exact pattern, and a specifier without one
. | jquery:n/jquery | ./n/jquery:ok |  | jquery = custom ok slug jquery | .>./n/jquery
. | jquery:n/jquery | ./n/jquery:ok |  | unrelated = refused | ->./unrelated ->unrelated
# each target in order
. | *:*,g/* | ./f/a:x ./g/h/b:y |  | f/a = custom x | ->f/a .>./f/a
. | *:*,g/* | ./f/a:x ./g/h/b:y |  | h/b = custom y | ->h/b .>./h/b .>h/b ->h/b .>./g/h/b
# by a pattern, behind the base folder, and as it is
. | @c/*:src/c/* | ./src/c/h:x |  | @c/h = custom x | ->@c/h .>./src/c/h
. | @c/*:src/c/* | ./src/c/h:x |  | src/c/h = custom x | ->./src/c/h
. | @c/*:src/c/* | ./src/c/h:x |  | ./src/c/h = custom x | ->./src/c/h
# no patterns
. |  | ./jquery:x jquery:y react:z |  | jquery = custom x | ->./jquery
. |  | ./jquery:x jquery:y react:z |  | react = custom z | ->./react ->react
# the longest text before a `*`
. | @app/*:./p/*/src @app/h/*:./p/h/src/* | ./p/h/src/hello:good |  | @app/h/hello = custom good | ->@app/h/hello .>././p/h/src/hello .>./p/h/src/hello"
}

// Which pattern decides.
fn patterns() -> &'static str {
    "# of equal lengths the first, which decides alone
/w | a/*:one/* a/*:two/* | ./two/x:no | /w/a.js | a/x = real one/x slug x | /w/a.js>a/x /w>./one/x /w>one/x
# the longer one, though it is given later
/w | a*:q/* ab*:p/* | ./p/c:k | /w/a.js | abc = custom k | /w/a.js>abc /w>./p/c
# what stands behind the `*` counts for nothing
/w | a/*/long:q/* a/b*:p/* | ./p/c:k | /w/a.js | a/bc = custom k | /w/a.js>a/bc /w>./p/c
# an exact one before each wildcard
/w | a*:q/* abc:e | ./e:k | /w/a.js | abc = custom k slug e | /w>./e
# of two exact ones the first
/w | abc:one abc:two | ./two:k | /w/a.js | abc = real /w/one slug one | /w>./one
# a later one is not tried
/w | ab*:p/*,r/* a*:q/* | ./q/bc:k | /w/a.js | abc = fault ab* 2 | /w/a.js>abc /w>./p/c /w>p/c /w/a.js>abc /w>./r/c /w>r/c
# nothing need stand for the `*`
/w | lib/*:src/* |  | /w/a.js | lib/ = real src/ slug  | /w/a.js>lib/ /w>./src/ /w>src/
# the text before the `*` must be there
/w | a/*:t/* | a:k | /w/a.js | a = custom k | /w/a.js>/w/a /w/a.js>a
# each `*` of a target is replaced
/w | @x/*:*/mid/* | q/mid/q:k | /w/a.js | @x/q = custom k | /w/a.js>@x/q /w>./q/mid/q /w>q/mid/q
# the only target of `*` alone isn't answered unchecked
/w | *:t/* |  | /w/a.js | m = fault * 1 | /w/a.js>m /w>./t/m /w>t/m
# a wildcard's slug keeps its dots
/w | d/*:deep/*/end.ts |  | /w/a.js | d/q = real deep/q/end.ts slug end.ts | /w/a.js>d/q /w>./deep/q/end.ts /w>deep/q/end.ts
# a success ends the tries
/w | r/*:t/* | r/x:k ./t/x:no | /w/a.js | r/x = custom k | /w/a.js>r/x"
}

// Exact targets, `node_modules` on either side, and what goes on as it is.
fn targets() -> &'static str {
    "# an absolute target asks nothing
/w | abs:/opt/lib.min.js |  | /w/a.js | abs = real /opt/lib.min.js slug lib |
# the name of an index file gives no slug
/w | idx:src/index.ts |  | /w/a.js | idx = real /w/src/index.ts | /w>./src/index.ts
/w | idx:/w/index.tsx |  | /w/a.js | idx = real /w/index.tsx |
# up to the first dot, and one slash between
/w/ | jq:vendor/.hidden.js |  | /w/a.js | jq = real /w/vendor/.hidden.js slug  | /w/>./vendor/.hidden.js
# an answer in `node_modules` is named by the specifier, and keeps its file
/w |  | m:/w/node_modules/m/i.js | /w/a.js | m = real m found /w/node_modules/m/i.js | /w/a.js>/w/m /w/a.js>m
# from there it goes on as it is
/w | m:x | m:/w/node_modules/m/i.js | /w/node_modules/q/i.js | m = real /w/node_modules/m/i.js found /w/node_modules/m/i.js | /w/node_modules/q/i.js>m
# the base folder stands outside
/w | v/*:node_modules/* | ./node_modules/m:/w/node_modules/m.js | /w/a.js | v/m = real ./node_modules/m found /w/node_modules/m.js | /w/a.js>v/m /w>./node_modules/m
# or inside
/w/node_modules/p | v/*:l/* | ./l/m:/w/node_modules/p/l/m.js | /w/a.js | v/m = real /w/node_modules/p/l/m.js found /w/node_modules/p/l/m.js | /w/a.js>v/m /w/node_modules/p>./l/m
# with a slug
/w | j:node_modules/j/j.js | ./node_modules/j/j.js:/w/node_modules/j/j.js | /w/a.js | j = real ./node_modules/j/j.js slug j found /w/node_modules/j/j.js | /w>./node_modules/j/j.js
# a name that holds it is another
/w | m:x | ./x:k | /w/my_node_modules/a.js | m = custom k slug x | /w>./x
# and so is a name that is no path
/w | m:x | ./x:k | custom node_modules/a.js | m = custom k slug x | /w>./x
# `..` goes on as it is, and `.` does not
/w | *:t/* | ..:k | /w/a.js | .. = custom k | /w/a.js>..
/w | *:t/* |  | /w/a.js | . = fault * 1 | /w/a.js>. /w>./t/. /w>t/.
# a specifier that begins with a dot isn't looked for behind the base folder
/w | a:b |  | /w/a.js | .x = refused | /w/a.js>.x"
}

// The patterns as a resolver takes them.
fn paths_of(alloc: Global, paths: &str) -> Result<List<(Text, List<Text>)>, Fail> {
    let mut all = Vec::new(alloc);
    for path in paths.split_whitespace() {
        let (pattern, targets) = path.split_once(':').ok_or("no targets")?;
        all.push((Text::of(alloc, pattern)?, targets_of(alloc, targets)?))?;
    }
    Ok(List::from(all))
}

fn targets_of(alloc: Global, targets: &str) -> Result<List<Text>, AllocError> {
    let mut texts = Vec::new(alloc);
    for target in targets.split(',') {
        if !target.is_empty() {
            texts.push(Text::of(alloc, target)?)?;
        }
    }
    Ok(List::from(texts))
}

fn mapping(
    alloc: Global,
    url: &str,
    paths: &str,
    inner: Table,
) -> Result<Result<TsConfigResolver<Table>, TsError>, Fail> {
    let url = Text::of(alloc, url)?;
    let paths = paths_of(alloc, paths)?;
    match TsConfigResolver::new(alloc, inner, url, paths) {
        Ok(resolver) => Ok(Ok(resolver)),
        Err((_, e)) => Ok(Err(e)),
    }
}

fn came_to(
    alloc: Global,
    came: Result<Resolution, TsRefusal<Unknown>>,
) -> Result<String, AllocError> {
    match came {
        Ok(answer) => told(alloc, &answer),
        Err(TsRefusal::Inner(_)) => String::from_str(alloc, "refused"),
        Err(TsRefusal::TsFault { pattern, inner }) => {
            format!(in alloc; "fault {} {}", pattern.as_str(), inner.as_slice().len())
        }
    }
}

// What a row comes to, and the table's requests, as the row tells them.
fn came_by(alloc: Global, row: &Row<'_>) -> Result<String, Fail> {
    let mut inner = table_of(alloc, row.has)?;
    let url = Text::of(alloc, row.url)?;
    let paths = paths_of(alloc, row.paths)?;
    let came = match TsConfigResolver::new(alloc, &mut inner, url, paths) {
        Ok(mut resolver) => ask(alloc, &mut resolver, row.base, row.specifier)?,
        Err(_) => return Err(Fail::from("patterns")),
    };
    let came = came_to(alloc, came)?;
    Ok(format!(in alloc; "{} |{}", came.as_str(), inner.noted.as_str())?)
}

// Each row of a table comes to what it says.
fn rows_come(rt: &impl Abort, alloc: Global, rows: &str) -> Result<(), Fail> {
    for line in rows.lines() {
        if !line.starts_with('#') {
            let (given, wanted) = line.split_once(" = ").ok_or("no answer")?;
            let row = row_of(given).ok_or("no request")?;
            let came = came_by(alloc, &row)?;
            assert_eq!(rt; came.as_str(), wanted, "{given}");
        }
    }
    Ok(())
}

#[test]
fn requests_from_nowhere(rt: HostRuntime) -> Result<(), Fail> {
    rows_come(&rt, rt.alloc(), from_nowhere())
}

#[test]
fn patterns_decide(rt: HostRuntime) -> Result<(), Fail> {
    rows_come(&rt, rt.alloc(), patterns())
}

#[test]
fn targets_and_modules(rt: HostRuntime) -> Result<(), Fail> {
    rows_come(&rt, rt.alloc(), targets())
}

// What patterns are refused for.
#[test]
fn patterns_are_refused(rt: HostRuntime) -> Result<(), Fail> {
    for (paths, cause) in [
        ("a:x,y", TsError::ExactNeedsOne { at: 0 }),
        ("*/*:x", TsError::TwoWildcards { at: 0 }),
        ("a:x b:", TsError::EmptyTargets { at: 1 }),
        ("a:x b**:", TsError::EmptyTargets { at: 1 }),
        ("a:x b**:x c:", TsError::TwoWildcards { at: 1 }),
    ] {
        let inner = table_of(rt.alloc(), "")?;
        let refused = mapping(rt.alloc(), "/w", paths, inner)?.err();
        assert_eq!(rt; refused, Some(cause));
    }
    Ok(())
}
