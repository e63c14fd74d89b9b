// The messages of undeclared dependencies and of peers that nobody provides, and why a text is no manifest: letter by
// letter as Yarn has them.
use crate::manifests::{path, tree_of};
use crate::packages::locator;
use crate::rows::{Told, rows_come};
use pnp_core::{
    Error, Manifest, PackageLocator, load_pnp_manifest, missing_peer_of, split_bare_identifier,
    undeclared_of,
};
use std::alloc::{AllocError, Global};
use std::test::Fail;
use sugar_path::Text;
use tree_core::Recorder;

/// A package, a specifier that its file asks for, the file, and what it is told, with `\n` where a line ends.
pub(crate) fn messages() -> &'static str {
    r#"# a builtin module that isn't declared, asked by the application and by a package
undeclared app@workspace:. fs/promises /w/main.js = Your application tried to access fs. While this module is usually interpreted as a Node builtin, your resolver is running inside a non-Node resolution context where such builtins are ignored. Since fs isn't otherwise declared in your dependencies, this makes the require call ambiguous and unsound.\n\nRequired package: fs (via "fs/promises")\nRequired by: /w/main.js
undeclared foo@npm:1.0.0 fs /w/.yarn/foo/index.js = foo tried to access fs. While this module is usually interpreted as a Node builtin, your resolver is running inside a non-Node resolution context where such builtins are ignored. Since fs isn't otherwise declared in foo's dependencies, this makes the require call ambiguous and unsound.\n\nRequired package: fs\nRequired by: /w/.yarn/foo/index.js
# any other name
undeclared app@workspace:. lib /w/main.js = Your application tried to access lib, but it isn't declared in your dependencies; this makes the require call ambiguous and unsound.\n\nRequired package: lib\nRequired by: /w/main.js
undeclared foo@npm:1.0.0 @s/lib/part /w/.yarn/foo/index.js = foo tried to access @s/lib, but it isn't declared in its dependencies; this makes the require call ambiguous and unsound.\n\nRequired package: @s/lib (via "@s/lib/part")\nRequired by: foo@npm:1.0.0 (via /w/.yarn/foo/index.js)
# a peer that nobody provides to the package
peer app@workspace:. lib /w/main.js = Your application tried to access lib (a peer dependency); this isn't allowed as there is no ancestor to satisfy the requirement. Use a devDependency if needed.\n\nRequired package: lib\nRequired by: /w/main.js
peer foo@npm:1.0.0 fs/promises /w/.yarn/foo/index.js = foo tried to access fs (a peer dependency) but it isn't provided by its ancestors; this makes the require call ambiguous and unsound.\n\nRequired package: fs (via "fs/promises")\nRequired by: foo@npm:1.0.0 (via /w/.yarn/foo/index.js)"#
}

// A specifier, the name of its package, and the file that asks.
#[derive(Drop)]
struct Asked<'a> {
    specifier: &'a str,
    name: &'a str,
    file: &'a str,
}

fn message(
    alloc: Global,
    manifest: &Manifest,
    owner: &PackageLocator,
    asked: &Asked<'_>,
    is_peer: bool,
) -> Result<Text, AllocError> {
    let Asked {
        specifier,
        name,
        file,
    } = asked;
    if is_peer {
        let told = missing_peer_of(alloc, manifest, owner, specifier, name, file)?;
        return told.message.try_clone(alloc);
    }
    let told = undeclared_of(alloc, manifest, owner, specifier, name, file)?;
    told.message.try_clone(alloc)
}

fn name_of(alloc: Global, specifier: &str) -> Result<Text, Fail> {
    let (name, _) = split_bare_identifier(alloc, specifier)?.ok_or("a scope alone")?;
    Ok(name)
}

/// What a package's file is told of a name that the package doesn't declare, or of a peer that nobody provides.
pub(crate) fn message_told(
    alloc: Global,
    manifest: &Manifest,
    given: &str,
    is_peer: bool,
) -> Result<Text, Fail> {
    let (package, asked) = given.split_once(' ').ok_or("no specifier")?;
    let (specifier, file) = asked.split_once(' ').ok_or("no file")?;
    let owner = locator(alloc, package)?;
    let name = name_of(alloc, specifier)?;
    let asked = Asked {
        specifier,
        name: name.as_str(),
        file,
    };
    let told = message(alloc, manifest, &owner, &asked, is_peer)?;
    Ok(Text::from(told.as_str().replace(alloc, '\n', "\\n")?))
}

/// Why a content is no manifest: the cause, the file and the message.
pub(crate) fn cause_told(alloc: Global, content: &[u8]) -> Result<Text, Fail> {
    let mut tree = tree_of(alloc, content)?;
    let mut recorder = Recorder::new(alloc, &mut tree);
    let file = path(alloc, "/w/.pnp.cjs")?;
    let loaded = load_pnp_manifest(alloc, &mut recorder, file.as_str());
    match &loaded {
        Err(Error::FailedManifestHydration(failed)) => {
            let (cause, file, message) = (failed.cause, &failed.manifest_path, &failed.message);
            Ok(Text::from(format!(in alloc; "{cause:?} {file}: {message}")?))
        }
        _ => Err(Fail::from("it is a manifest")),
    }
}

// A text, and why it is no manifest, on each line.
fn causes() -> &'static str {
    r#"x = NoPayload /w/.pnp.cjs: We failed to locate the PnP data payload inside its manifest file. Did you manually edit the file?
const RAW_RUNTIME_STATE = '{'; = BadJson /w/.pnp.cjs: We failed to parse the PnP data payload as proper JSON; Did you manually edit the file?
const RAW_RUNTIME_STATE = '{"dependencyTreeRoots":[],"enableTopLevelFallback":false,"fallbackExclusionList":[],"fallbackPool":[],"packageRegistryData":[]}'; = NoTopLevel /w/.pnp.cjs: The PnP data payload has no top-level row."#
}

#[test]
fn causes_are_told(rt: HostRuntime) -> Result<(), Fail> {
    let found = cause_told(rt.alloc(), b"\xff")?;
    assert_eq!(rt;
        found.as_str(),
        "NotText /w/.pnp.cjs: We failed to read the content of the manifest."
    );
    rows_come(&rt, rt.alloc(), Told::Cause, causes())
}
