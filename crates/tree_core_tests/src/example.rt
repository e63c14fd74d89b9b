// A tree in memory, asked through a recorder: a question that was put before isn't put again.
use std::test::Fail;
use sugar_path::is_clean;
use tree_core::{MemoryTree, Recorder};

#[test]
fn a_question_is_put_once(rt: HostRuntime) -> Result<(), Fail> {
    let mut tree = MemoryTree::new(rt.alloc());
    tree.put("/w/a.js", b"", "/w/a.js")?;
    assert!(rt; is_clean("/w/a.js"));
    let mut recorder = Recorder::new(rt.alloc(), &mut tree);
    assert!(rt; recorder.is_file("/w/a.js")?);
    assert!(rt; recorder.is_file("/w/a.js")?);
    assert_eq!(rt; recorder.trail().len(), 1);
    Ok(())
}
