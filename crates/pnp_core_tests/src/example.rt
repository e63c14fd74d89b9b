// The package that a bare specifier names, and the payload of a manifest's text.
use pnp_core::{parse_bare_identifier, payload_of};
use std::test::Fail;

#[test]
fn a_specifier_names_a_package(rt: HostRuntime) -> Result<(), Fail> {
    let (name, subpath) = parse_bare_identifier(rt.alloc(), "@scope/name/lib/part")?;
    assert_eq!(rt; name.as_str(), "@scope/name");
    assert_eq!(rt; subpath.ok_or("no subpath")?.as_str(), "lib/part");
    let payload = payload_of(rt.alloc(), "const RAW_RUNTIME_STATE = '{}';")?;
    assert_eq!(rt; payload.ok_or("no payload")?.as_str(), "{}");
    Ok(())
}
