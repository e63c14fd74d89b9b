// What names are bound to, by hand.
use crate::answers::answers;
use crate::packages::locator;
use pnp_core::{Binding, Manifest, PackageLocator, binding_of, binding_of_name};
use std::alloc::{AllocError, Global};
use std::test::Fail;
use sugar_path::Text;

// The application and the package `alone` are excluded from the fallback.
fn with_fallback() -> &'static str {
    r#"const RAW_RUNTIME_STATE =
'{"dependencyTreeRoots":[{"name":"app","reference":"workspace:."}],"enableTopLevelFallback":true,"ignorePatternData":null,"fallbackExclusionList":[["app",["workspace:."]],["alone",["npm:1.0.0"]]],"fallbackPool":[["pooled","npm:3.0.0"],["top","npm:9.0.0"],["nulled","npm:7.0.0"],["void",null]],"packageRegistryData":[[null,[[null,{"packageLocation":"./","packageDependencies":[["foo","npm:1.0.0"],["top","npm:4.0.0"],["nulled",null],["aliased",["bar","npm:6.0.0"]]]}]]],["app",[["workspace:.",{"packageLocation":"./","packageDependencies":[["foo","npm:1.0.0"],["peer",null]]}]]],["foo",[["npm:1.0.0",{"packageLocation":"./foo/","packageDependencies":[["own","npm:2.0.0"],["alias",["bar","npm:5.0.0"]],["top",null],["peer",null],["void",null]]}]]],["alone",[["npm:1.0.0",{"packageLocation":"./alone/","packageDependencies":[["peer",null]]}]]]]}';
"#
}

fn without_fallback() -> &'static str {
    r#"const RAW_RUNTIME_STATE =
'{"dependencyTreeRoots":[],"enableTopLevelFallback":false,"ignorePatternData":null,"fallbackExclusionList":[],"fallbackPool":[["pooled","npm:3.0.0"]],"packageRegistryData":[[null,[[null,{"packageLocation":"./","packageDependencies":[["top","npm:4.0.0"]]}]]],["foo",[["npm:1.0.0",{"packageLocation":"./foo/","packageDependencies":[["top",null]]}]]]]}';
"#
}

// A package by its name and reference, a name that it asks for, and the binding, on each line.
fn with_fallback_bound() -> &'static str {
    "# the package's own row
bound foo@npm:1.0.0 own = own@npm:2.0.0
bound foo@npm:1.0.0 alias = bar@npm:5.0.0
# the fallback: the row of the top level, and then the pool
bound foo@npm:1.0.0 top = top@npm:4.0.0
bound foo@npm:1.0.0 aliased = bar@npm:6.0.0
bound foo@npm:1.0.0 pooled = pooled@npm:3.0.0
bound foo@npm:1.0.0 nulled = nulled@npm:7.0.0
bound foo@npm:1.0.0 void = missing peer
bound foo@npm:1.0.0 peer = missing peer
bound foo@npm:1.0.0 other = undeclared
# a package that has no row
bound foo@npm:2.0.0 own = undeclared
bound foo@npm:2.0.0 top = top@npm:4.0.0
# packages that are kept from the fallback
bound app@workspace:. foo = foo@npm:1.0.0
bound app@workspace:. peer = missing peer
bound app@workspace:. top = undeclared
bound alone@npm:1.0.0 peer = missing peer
bound alone@npm:1.0.0 pooled = undeclared
bound alone@npm:2.0.0 pooled = pooled@npm:3.0.0
# the top level itself
bound @ top = top@npm:4.0.0
bound @ nulled = missing peer
bound @ pooled = undeclared"
}

fn without_fallback_bound() -> &'static str {
    "bound foo@npm:1.0.0 top = missing peer
bound foo@npm:1.0.0 pooled = undeclared"
}

// A binding in words.
fn shown(alloc: Global, binding: &Binding) -> Result<Text, AllocError> {
    match binding {
        Binding::Bound(found) => Ok(Text::from(format!(in alloc;
            "{}@{}",
            found.name, found.reference
        )?)),
        Binding::MissingPeer => Text::of(alloc, "missing peer"),
        Binding::Undeclared => Text::of(alloc, "undeclared"),
    }
}

/// What a package has a name bound to, which is the same by a text of the name's own.
pub(crate) fn bound_told(alloc: Global, manifest: &Manifest, given: &str) -> Result<Text, Fail> {
    let (package, name) = given.split_once(' ').ok_or("no name")?;
    let owner = locator(alloc, package)?;
    let bound = binding_of(alloc, manifest, &owner, name)?;
    if !is_bound_to(alloc, manifest, &owner, name, &bound)? {
        return Err(Fail::from("two bindings"));
    }
    Ok(shown(alloc, &bound)?)
}

// Whether a name that is a text of its own is bound alike.
fn is_bound_to(
    alloc: Global,
    manifest: &Manifest,
    owner: &PackageLocator,
    name: &str,
    bound: &Binding,
) -> Result<bool, AllocError> {
    let name = Text::of(alloc, name)?;
    Ok(binding_of_name(alloc, manifest, owner, &name)? == *bound)
}

#[test]
fn names_are_bound_with_a_fallback(rt: HostRuntime) -> Result<(), Fail> {
    answers(&rt, rt.alloc(), with_fallback(), with_fallback_bound())
}

#[test]
fn names_are_bound_without_a_fallback(rt: HostRuntime) -> Result<(), Fail> {
    answers(
        &rt,
        rt.alloc(),
        without_fallback(),
        without_fallback_bound(),
    )
}
