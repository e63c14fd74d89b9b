// Real files, written into the folder that a test runs in and asked for by absolute paths.
use disk_tree::{DiskTree, LARGEST_FILE};
use std::alloc::{AllocError, Global};
use std::fs::OpenFile;
use std::rt::{Env, Files};
use std::test::Fail;
use std::{env, fs, io};
use sugar_path::CleanPath;
use tree_core::{Asker, ReadError, Recorder, Tree};

#[test]
fn files_and_folders_are_told_apart(rt: HostRuntime) -> Result<(), Fail> {
    let folder = project(&rt)?;
    let mut disk = DiskTree::new(&rt);
    let mut recorder = Recorder::new(rt.alloc(), &mut disk);
    for (path, file, folder_there) in [
        ("shop/lib/a.js", true, false),
        ("shop/lib", false, true),
        ("shop/none", false, false),
        ("shop/lib/a.js/b", false, false),
    ] {
        let path = CleanPath::read(rt.alloc(), &folder, path)?;
        assert_eq!(rt; recorder.is_file(path.as_str())?, file);
        assert_eq!(rt; recorder.is_dir(path.as_str())?, folder_there);
        assert_eq!(rt; recorder.exists(path.as_str())?, file || folder_there);
    }
    Ok(())
}

#[test]
fn a_file_has_bytes_and_a_name(rt: HostRuntime) -> Result<(), Fail> {
    let folder = project(&rt)?;
    let mut disk = DiskTree::new(&rt);
    let mut recorder = Recorder::new(rt.alloc(), &mut disk);
    let file = CleanPath::read(rt.alloc(), &folder, "shop/lib/a.js")?;
    match recorder.read(file.as_str())? {
        Some(bytes) => assert_eq!(rt; bytes.as_slice(), b"x\xff".as_slice()),
        None => assert!(rt; false),
    }
    match recorder.canonical(file.as_str())? {
        Some(name) => assert_eq!(rt; name.as_str(), file.as_str()),
        None => assert!(rt; false),
    }
    Ok(())
}

#[test]
fn a_folder_has_neither(rt: HostRuntime) -> Result<(), Fail> {
    let folder = project(&rt)?;
    let mut disk = DiskTree::new(&rt);
    let mut recorder = Recorder::new(rt.alloc(), &mut disk);
    for path in ["shop/lib", "shop/none", "shop/lib/a.js/b"] {
        let path = CleanPath::read(rt.alloc(), &folder, path)?;
        assert!(rt; recorder.read(path.as_str())?.is_none());
        assert!(rt; recorder.canonical(path.as_str())?.is_none());
    }
    Ok(())
}

// The system takes no name of more than 255 bytes: that is no absence.
#[test]
fn another_error_is_a_fault(rt: HostRuntime) -> Result<(), Fail> {
    let mut name = String::new(rt.alloc());
    for _ in 0..300 {
        name.push('n')?;
    }
    let folder = project(&rt)?;
    let path = CleanPath::read(rt.alloc(), &folder, name.as_str())?;
    let mut disk = DiskTree::new(&rt);
    let mut recorder = Recorder::new(rt.alloc(), &mut disk);
    match recorder.is_file(path.as_str()) {
        Err(e) => assert_eq!(rt; e, ReadError::Fault),
        Ok(_) => assert!(rt; false),
    }
    assert!(rt; recorder.trail().is_empty());
    Ok(())
}

// What is told of the latest fault.
fn told<R: Files + AllocGlobal>(alloc: Global, disk: &DiskTree<'_, R>) -> Result<String, Fail> {
    let fault = disk.fault().ok_or("no fault")?;
    Ok(format!(in alloc; "{fault}")?)
}

#[test]
fn a_fault_is_told_with_its_path_and_reason(rt: HostRuntime) -> Result<(), Fail> {
    let alloc = rt.alloc();
    let root = CleanPath::root(alloc);
    let name = String::from_str(alloc, "n")?.repeat(alloc, 300)?;
    let path = CleanPath::read(alloc, &root, name.as_str())?;
    let mut disk = DiskTree::new(&rt);
    assert!(rt; disk.fault().is_none());
    assert!(rt; disk.is_dir(path.as_str()).is_err());
    let line = format!(in alloc; "/{name}: File name too long (os error 36)")?;
    assert_eq!(rt; told(alloc, &disk)?.as_str(), line.as_str());
    Ok(())
}

// Files of many bytes, of which none is written: what is read of them is zeros.
#[test]
fn a_file_that_is_too_large_is_a_fault(rt: HostRuntime) -> Result<(), Fail> {
    let alloc = rt.alloc();
    let folder = project(&rt)?;
    fs::create(&rt, "shop/large.js")?.set_len(LARGEST_FILE + 1)?;
    let path = CleanPath::read(alloc, &folder, "shop/large.js")?;
    let mut disk = DiskTree::new(&rt);
    assert!(rt; disk.is_file(path.as_str())?);
    match disk.read(alloc, path.as_str()) {
        Err(e) => assert_eq!(rt; e, ReadError::Fault),
        Ok(_) => assert!(rt; false),
    }
    let line = format!(in alloc;
        "{}: the file has more than 268,435,456 bytes",
        path.as_str()
    )?;
    assert_eq!(rt; told(alloc, &disk)?.as_str(), line.as_str());
    Ok(())
}

#[test]
fn the_largest_file_is_read(rt: HostRuntime) -> Result<(), Fail> {
    let alloc = rt.alloc();
    let folder = project(&rt)?;
    fs::create(&rt, "shop/largest.js")?.set_len(LARGEST_FILE)?;
    let path = CleanPath::read(alloc, &folder, "shop/largest.js")?;
    let mut disk = DiskTree::new(&rt);
    match disk.read(alloc, path.as_str())? {
        Some(bytes) => assert_eq!(rt; bytes.as_slice().len() as u64, LARGEST_FILE),
        None => assert!(rt; false),
    }
    fs::remove_file(&rt, "shop/largest.js")?;
    Ok(())
}

// Writes a file below the folder that the test runs in, and answers that folder.
fn project<R: Files + Env + AllocGlobal>(rt: &R) -> Result<CleanPath, Written> {
    fs::create_dir_all(rt, "shop/lib")?;
    fs::write(rt, "shop/lib/a.js", b"x\xff")?;
    let folder = env::current_dir(rt)?;
    let root = CleanPath::root(rt.alloc());
    Ok(CleanPath::read(rt.alloc(), &root, folder.as_str())?)
}

// Why the folder has no file.
#[derive(Debug, Drop)]
enum Written {
    Disk(io::Error),
    NoMemory,
}

impl From<io::Error> for Written {
    fn from(e: io::Error) -> Self {
        Written::Disk(e)
    }
}

impl From<AllocError> for Written {
    fn from(_: AllocError) -> Self {
        Written::NoMemory
    }
}
