// The adapters over readers and writers of the system, here over files in the folder that the test runs in.
use cli_core::{ReaderSource, Status, WriterSink, run};
use std::fs;
use std::fs::File;
use std::rt::Files;
use std::test::Fail;
use tree_core::MemoryTree;

fn document() -> &'static str {
    "{\"cwd\":\"/w\",\"files\":[{\"path\":\"/w/a.js\",\"text\":\"\"},{\"path\":\"/w/b.ts\",\"text\":\"\"}],\"requests\":[{\"from\":\"/w/a.js\",\"specifier\":\"./b\"}]}"
}

// How the program ends that reads the document from a file and writes its lines to another.
fn status_over_files<R: Files + AllocGlobal>(rt: &R) -> Result<Status, Fail> {
    fs::write(rt, "document.json", document().as_bytes())?;
    let words = vec![in rt.alloc(); String::from_str(rt.alloc(), "resolve")?]?;
    let mut source = ReaderSource::new(File::open(rt, "document.json")?);
    let mut sink = WriterSink::new(File::create(rt, "lines.txt")?);
    let mut disk = MemoryTree::new(rt.alloc());
    Ok(run(rt.alloc(), &words, &mut source, &mut sink, &mut disk))
}

#[test]
fn files_are_streams(rt: HostRuntime) -> Result<(), Fail> {
    assert_eq!(rt; status_over_files(&rt)?.code(), 0);
    let lines = fs::read(&rt, "lines.txt")?;
    let wanted =
        "{\"answer\":{\"real\":\"/w/b.ts\"},\"found\":{\"file\":\"/w/b.ts\",\"via\":null},\"slug\":null}\n";
    assert_eq!(rt; lines.as_slice(), wanted.as_bytes());
    Ok(())
}
