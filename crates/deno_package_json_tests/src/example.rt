// A package.json with a module and a requirement.
use deno_package_json::{NodeModuleKind, PackageJson, PackageJsonDepValue};
use std::alloc::{AllocError, Global};
use std::test::Fail;
use sugar_path::Text;

// Whether a package requires a range of a name.
fn has_range(alloc: Global, package: &PackageJson, name: &str) -> Result<bool, AllocError> {
    let requirements = package.resolve_local_package_json_deps(alloc)?;
    let name = Text::of(alloc, name)?;
    Ok(matches!(
        requirements.get(&name),
        Some(Ok(PackageJsonDepValue::Req(_)))
    ))
}

#[test]
fn a_package_is_read(rt: HostRuntime) -> Result<(), Fail> {
    let source = r#"{"main": "./cart.js", "dependencies": {"lodash": "^4.17.0"}}"#;
    let path = Text::of(rt.alloc(), "/shop/package.json")?;
    let package = PackageJson::load_from_string(rt.alloc(), path, source)?;
    assert_eq!(rt; package.main(NodeModuleKind::Cjs), Some("./cart.js"));
    assert!(rt; has_range(rt.alloc(), &package, "lodash")?);
    Ok(())
}
