// What contents of package.jsons are read to, by hand.
use package_readings::{PackageReadings, ReadPackage};
use std::alloc::{AllocError, Global};
use std::process::Abort;
use std::test::Fail;
use sugar_path::Bytes;

// A content, in which `~` stands for a byte that is no UTF-8, and what it is read to: its name and how many packages it
// requires, or none.
fn rows() -> &'static str {
    r#"{"name": "cart", "dependencies": {"a": "^1"}, "devDependencies": {"a": "^2", "b": "!"}} = cart 2
{"name": "cart"} = cart 0
{"name": "~"} = � 0
[] = unnamed 0
  = unnamed 0
~ = none
{ = none
{"x": 1.5} = none
{"exports": {"./a": "./a.js", "import": "./b.js"}} = none"#
}

fn content_of(alloc: Global, text: &str) -> Result<Bytes, AllocError> {
    let mut bytes = Vec::new(alloc);
    for byte in text.bytes() {
        bytes.push(if byte == b'~' { 0xff } else { byte })?;
    }
    Bytes::from_vec(bytes)
}

fn told(alloc: Global, found: Option<&ReadPackage>) -> Result<String, AllocError> {
    let Some(package) = found else {
        return String::from_str(alloc, "none");
    };
    let name = match &package.package_json.name {
        Some(name) => name.as_str(),
        None => "unnamed",
    };
    let count = package.requirements.len();
    format!(in alloc; "{name} {count}")
}

fn is_read(
    rt: &impl Abort,
    alloc: Global,
    packages: &mut PackageReadings,
    row: &str,
) -> Result<(), Fail> {
    let (content, wanted) = row.split_once(" = ").ok_or("nothing wanted")?;
    let content = content_of(alloc, content)?;
    let told = told(alloc, packages.package_of(alloc, content)?)?;
    assert_eq!(rt; told.as_str(), wanted, "{row}");
    Ok(())
}

#[test]
fn contents_are_read_once_and_found_again(rt: HostRuntime) -> Result<(), Fail> {
    let mut packages = PackageReadings::new(rt.alloc());
    for row in rows().lines() {
        is_read(&rt, rt.alloc(), &mut packages, row)?;
        is_read(&rt, rt.alloc(), &mut packages, row)?;
    }
    Ok(())
}
