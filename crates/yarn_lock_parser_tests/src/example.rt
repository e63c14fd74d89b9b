// What an entry needs.
use std::test::Fail;
use yarn_lock_parser::parse_str;

#[test]
fn a_lock_file_is_read(rt: HostRuntime) -> Result<(), Fail> {
    let text =
        "# a\n# yarn lockfile v1\n\ncart@^2:\n  version \"2.1.0\"\n  dependencies:\n    lodash \"^4\"\n";
    let lock = parse_str(rt.alloc(), text)?;
    for entry in lock.entries() {
        assert_eq!(rt; entry.name(), "cart");
        assert_eq!(rt; entry.version(), "2.1.0");
        for (name, range) in entry.dependencies().iter() {
            assert!(rt; name == "lodash" && range == "^4");
        }
    }
    Ok(())
}
