// Trails: at which place a question stands first.
use std::alloc::{AllocError, Global};
use std::test::Fail;
use sugar_path::{Text, is_clean};
use tree_core::{MemoryTree, Question, Recorder, Reply, Trail};

const QUESTIONS: usize = 10_000;

fn question_at(alloc: Global, i: usize) -> Result<Question, AllocError> {
    let path = format!(in alloc; "/w/{i}")?;
    Ok(Question::File(Text::of(alloc, path.as_str())?))
}

#[test]
fn a_long_trail_tells_first_places(rt: HostRuntime) -> Result<(), Fail> {
    let mut tree = MemoryTree::new(rt.alloc());
    let mut recorder = Recorder::new(rt.alloc(), &mut tree);
    for i in 0..QUESTIONS {
        let path = format!(in rt.alloc(); "/w/{i}")?;
        assert!(rt; is_clean(path.as_str()));
        assert!(rt; !recorder.is_file(path.as_str())?);
    }
    let trail = recorder.into_trail();
    assert_eq!(rt; trail.len(), QUESTIONS);
    for i in 0..QUESTIONS {
        let question = question_at(rt.alloc(), i)?;
        assert_eq!(rt; trail.place_of(&question), Some(i));
    }
    let absent = question_at(rt.alloc(), QUESTIONS)?;
    assert_eq!(rt; trail.place_of(&absent), None);
    Ok(())
}

#[test]
fn a_repeated_question_keeps_its_first_place(rt: HostRuntime) -> Result<(), Fail> {
    let path = "/w/a.js";
    let mut trail = Trail::new(rt.alloc());
    let other = Question::Dir(Text::of(rt.alloc(), path)?);
    assert!(rt; trail.push(other, Reply::Flag(false)).is_ok());
    for flag in [true, false] {
        let question = Question::File(Text::of(rt.alloc(), path)?);
        assert!(rt; trail.push(question, Reply::Flag(flag)).is_ok());
    }
    let question = Question::File(Text::of(rt.alloc(), path)?);
    assert_eq!(rt; trail.place_of(&question), Some(1));
    match trail.reply_to(&question) {
        Some(Reply::Flag(flag)) => assert!(rt; *flag),
        _ => assert!(rt; false, "another reply"),
    }
    let absent = Question::Exists(Text::of(rt.alloc(), path)?);
    assert_eq!(rt; trail.place_of(&absent), None);
    Ok(())
}

#[test]
fn a_trail_prints_its_steps(rt: HostRuntime) -> Result<(), Fail> {
    let mut trail = Trail::new(rt.alloc());
    let question = Question::File(Text::of(rt.alloc(), "/w")?);
    assert!(rt; trail.push(question, Reply::Flag(true)).is_ok());
    let printed = format!(in rt.alloc(); "{trail:?}")?;
    assert_eq!(rt;
        printed.as_str(),
        "Trail { steps: [(File(\"/w\"), Flag(true))], .. }"
    );
    Ok(())
}
