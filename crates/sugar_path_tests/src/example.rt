// The route from a folder to a file beside it, read from a working folder.
use std::test::Fail;
use sugar_path::{Path, SugarPath};

#[test]
fn a_route_between_folders(rt: HostRuntime) -> Result<(), Fail> {
    let cwd = Path::of_text("/shop");
    let file = Path::of_text("lib/../src//main.js");
    let place = file.absolutize_with(rt.alloc(), cwd)?;
    assert_eq!(rt; place.as_path().bytes(), b"/shop/src/main.js".as_slice());
    let route = file.relative_with(rt.alloc(), Path::of_text("lib/parts"), cwd)?;
    assert_eq!(rt; route.as_path().bytes(), b"../../src/main.js".as_slice());
    Ok(())
}
