// A version that meets a package's range, and one that doesn't.
use npm_req::{PackageReq, Version};
use std::test::Fail;

#[test]
fn a_version_meets_a_range(rt: HostRuntime) -> Result<(), Fail> {
    let cart = PackageReq::from_str(rt.alloc(), "@shop/cart@^1.2")?;
    assert_eq!(rt; cart.name.as_str(), "@shop/cart");
    let range = &cart.version_req;
    assert!(rt; range.tag().is_none());
    assert!(rt; range.matches(&Version::parse_npm(rt.alloc(), "1.9.0")?));
    assert!(rt; !range.matches(&Version::parse_npm(rt.alloc(), "2.0.0")?));
    Ok(())
}
