// The two versions of settings, beside what TypeScript itself answers.
use crate::table::{ask, table_of};
use resolver_core::{TsConfigResolver, TsRefusal};
use std::alloc::{AllocError, Global};
use std::test::Fail;
use sugar_path::{List, Text};
use swc_loader::TsVersion;

// Patterns and a specifier, which pattern decides under version 1 with which rest, and which under version 2. The
// answers under version 2 are those of `matchPatternOrExact` and `matchedText` of TypeScript 4.8.4.
fn rows() -> &'static str {
    "lib/*.js | lib/a.js = lib/*.js [a.js] | lib/*.js [a]
lib/*.js | lib/a.ts = lib/*.js [a.ts] | -
lib/*.js | lib/.js = lib/*.js [.js] | lib/*.js []
lib/*.js | lib/a/b.js = lib/*.js [a/b.js] | lib/*.js [a/b]
lib/*.js | lib/js = lib/*.js [js] | -
lib/*.js | lib/a.js.js = lib/*.js [a.js.js] | lib/*.js [a.js]
ab*ba | aba = ab*ba [a] | -
ab*ba | abba = ab*ba [ba] | ab*ba []
ab*ba | abcba = ab*ba [cba] | ab*ba [c]
ab*ba | ab = ab*ba [] | -
ab*ba | abab = ab*ba [ab] | -
*.js *.css | a.js = *.js [a.js] | *.js [a]
*.js *.css | a.css = *.js [a.css] | *.css [a]
*.js *.css | a.ts = *.js [a.ts] | -
*.js *.css | .css = *.js [.css] | *.css []
a/* a/*.js | a/b.js = a/* [b.js] | a/* [b.js]
a/* a/*.js | a/b = a/* [b] | a/* [b]
a/*.js a/* | a/b.js = a/*.js [b.js] | a/*.js [b]
a/*.js a/* | a/b = a/*.js [b] | a/* [b]
a/*/long a/b* | a/bc = a/b* [c] | a/b* [c]
a/*/long a/b* | a/b/long = a/b* [/long] | a/b* [/long]
a/b*.ts a/* | a/b.js = a/b*.ts [.js] | a/* [b.js]
a/b*.ts a/* | a/b.ts = a/b*.ts [.ts] | a/b*.ts []
m*m m | m = exact | exact
m*m m | mm = m*m [m] | m*m []
* | q = * [q] | * [q]
* |  = * [] | * []
@s/*/x @s/*/y | @s/p/x = @s/*/x [p/x] | @s/*/x [p]
@s/*/x @s/*/y | @s/p/y = @s/*/x [p/y] | @s/*/y [p]
@s/*/x @s/*/y | @s/p/z = @s/*/x [p/z] | -"
}

// Each pattern with two targets, or one where it has no `*`, so that a request tells which pattern decides.
fn paths_of(alloc: Global, patterns: &str) -> Result<List<(Text, List<Text>)>, AllocError> {
    let mut all = Vec::new(alloc);
    for pattern in patterns.split_whitespace() {
        let mut targets = vec![in alloc; Text::of(alloc, "[*]")?]?;
        if pattern.contains('*') {
            targets.push(Text::of(alloc, "other")?)?;
        }
        all.push((Text::of(alloc, pattern)?, List::from(targets)))?;
    }
    Ok(List::from(all))
}

// What stands between the brackets of the first request for a target.
fn rest_in(noted: &str) -> Option<&str> {
    let (_, behind) = noted.split_once("./[")?;
    let (rest, _) = behind.split_once("] ")?;
    Some(rest)
}

// Which pattern decides, and the specifier's rest in brackets; `exact` for one without `*`, and `-` where none does.
fn decided(
    alloc: Global,
    version: TsVersion,
    patterns: &str,
    specifier: &str,
) -> Result<String, Fail> {
    let mut inner = table_of(alloc, "")?;
    let url = Text::of(alloc, "/w")?;
    let paths = paths_of(alloc, patterns)?;
    let came = match TsConfigResolver::new_versioned(alloc, &mut inner, url, paths, version) {
        Ok(mut resolver) => ask(alloc, &mut resolver, "/w/a.js", specifier)?,
        Err(_) => return Err(Fail::from("patterns")),
    };
    match came {
        Ok(_) => Ok(String::from_str(alloc, "exact")?),
        Err(TsRefusal::Inner(_)) => Ok(String::from_str(alloc, "-")?),
        Err(TsRefusal::TsFault { pattern, .. }) => {
            let rest = rest_in(inner.noted.as_str()).ok_or("no request")?;
            Ok(format!(in alloc; "{} [{rest}]", pattern.as_str())?)
        }
    }
}

#[test]
fn versions_decide(rt: HostRuntime) -> Result<(), Fail> {
    for line in rows().lines() {
        let (given, wanted) = line.split_once(" = ").ok_or("no answer")?;
        let (patterns, specifier) = given.split_once(" | ").ok_or("no specifier")?;
        let (first, second) = wanted.split_once(" | ").ok_or("one answer")?;
        let by_first = decided(rt.alloc(), TsVersion::V1, patterns, specifier)?;
        assert_eq!(rt; by_first.as_str(), first, "{given} under version 1");
        let by_second = decided(rt.alloc(), TsVersion::V2, patterns, specifier)?;
        assert_eq!(rt; by_second.as_str(), second, "{given} under version 2");
    }
    Ok(())
}
