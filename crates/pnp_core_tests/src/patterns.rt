// Ignore patterns: the paths that they leave without an owner, and what is told of one that is refused.
use crate::manifests::ready_from;
use crate::packages::owner_told;
use crate::rows::{Told, rows_come};
use crate::wordings::cause_told;
use std::alloc::{AllocError, Global};
use std::test::Fail;
use sugar_path::Text;

// The pattern that Yarn writes for its folder of editor tools, as a payload has it.
const SDKS: &str =
    r#""(^(?:\\\\.yarn\\\\/sdks(?:\\\\/(?!\\\\.{1,2}(?:\\\\/|$))(?:(?:(?!(?:^|\\\\/)\\\\.{1,2}(?:\\\\/|$)).)*?)|$))$)""#;

// An application, and a package beside its folder.
const ROWS: &str =
    r#"[[null,[[null,{"packageLocation":"./","packageDependencies":[]}]]],["beside",[["npm:1.0.0",{"packageLocation":"../beside/","packageDependencies":[]}]]]]"#;

// A manifest's text with an ignore pattern and rows, as the payload has them.
fn text_with(alloc: Global, pattern: &str, rows: &str) -> Result<String, AllocError> {
    format!(in alloc;
        "const RAW_RUNTIME_STATE = '{{\"dependencyTreeRoots\":[],\"enableTopLevelFallback\":true,\"ignorePatternData\":{pattern},\"fallbackExclusionList\":[],\"fallbackPool\":[],\"packageRegistryData\":{rows}}}'"
    )
}

// A pattern as a payload has it, or `sdks` for that one, a path, and the owner.
fn owners() -> &'static str {
    r#"# Yarn's own pattern
sdks /w/.yarn/sdks = nothing
sdks /w/.yarn/sdks/.bin = nothing
sdks /w/.yarn/sdks/typescript/lib/tsc.js = nothing
sdks /w/.yarn/sdksx/a.js = the top level
sdks /w/.yarn/sdk = the top level
sdks /w/node_modules/foo = the top level
sdks /w = the top level
sdks /beside/.yarn/sdks = beside
# the manifest's folder itself is a dot, and what lies beside it begins with two
"^\\\\.$" /w = nothing
"^\\\\.$" /w/a.js = the top level
"^\\\\.\\\\.\\\\/" /beside/a.js = nothing
"^\\\\.\\\\.\\\\/" /w/..a = the top level
# paths are told from that folder
"/w/" /w/a.js = the top level
# the empty pattern is found in each path, and without a pattern none is ignored
"" /w/a.js = nothing
null /w/.yarn/sdks = the top level"#
}

pub(crate) fn ignored_told(alloc: Global, given: &str) -> Result<Text, Fail> {
    let (pattern, path) = given.rsplit_once(' ').ok_or("no path")?;
    let pattern = if pattern == "sdks" { SDKS } else { pattern };
    let text = text_with(alloc, pattern, ROWS)?;
    let manifest = ready_from(alloc, text.as_str())?;
    owner_told(alloc, &manifest, path)
}

#[test]
fn ignored_paths_have_no_owner(rt: HostRuntime) -> Result<(), Fail> {
    rows_come(&rt, rt.alloc(), Told::Ignored, owners())
}

// A pattern and rows, and why they are no manifest.
fn refused() -> &'static str {
    r#"# a pattern that is refused
"(" [[null,[[null,{"packageLocation":"./","packageDependencies":[]}]]]] = BadPattern /w/.pnp.cjs: We failed to parse the PnP data payload as proper JSON; Did you manually edit the file?
"a{1001}" [[null,[[null,{"packageLocation":"./","packageDependencies":[]}]]]] = BadPattern /w/.pnp.cjs: We failed to parse the PnP data payload as proper JSON; Did you manually edit the file?
# is told before a missing top-level row
"(" [] = BadPattern /w/.pnp.cjs: We failed to parse the PnP data payload as proper JSON; Did you manually edit the file?
"a" [] = NoTopLevel /w/.pnp.cjs: The PnP data payload has no top-level row.
# and behind a value of another kind
"(" 1 = BadJson /w/.pnp.cjs: We failed to parse the PnP data payload as proper JSON; Did you manually edit the file?
1 [] = BadJson /w/.pnp.cjs: We failed to parse the PnP data payload as proper JSON; Did you manually edit the file?"#
}

pub(crate) fn refused_pattern_told(alloc: Global, given: &str) -> Result<Text, Fail> {
    let (pattern, rows) = given.split_once(' ').ok_or("no rows")?;
    let text = text_with(alloc, pattern, rows)?;
    cause_told(alloc, text.as_bytes())
}

#[test]
fn refused_patterns_are_told(rt: HostRuntime) -> Result<(), Fail> {
    rows_come(&rt, rt.alloc(), Told::RefusedPattern, refused())
}
