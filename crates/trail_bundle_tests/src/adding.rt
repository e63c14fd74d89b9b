// What trails add to a bundle.
use std::alloc::{AllocError, Global};
use std::test::Fail;
use sugar_path::Text;
use swc_loader::FileName;
use trail_bundle::{Bundle, BundleError};
use tree_core::{Question, Reply, Trail};

// A trail of questions for files, each with its reply.
fn trail_of(alloc: Global, steps: &[(&str, bool)]) -> Result<Trail, AllocError> {
    let mut trail = Trail::new(alloc);
    for (path, told) in steps {
        let question = Question::File(Text::of(alloc, path)?);
        if trail.push(question, Reply::Flag(*told)).is_err() {
            return Err(AllocError);
        }
    }
    Ok(trail)
}

fn add(alloc: Global, bundle: &mut Bundle, steps: &[(&str, bool)]) -> Result<(), BundleError> {
    let trail = trail_of(alloc, steps)?;
    bundle.add(&FileName::Anon, "x", &trail)
}

#[test]
fn a_request_added_twice_stands_twice(rt: HostRuntime) -> Result<(), Fail> {
    let mut bundle = Bundle::new(rt.alloc());
    for _ in 0..2 {
        add(
            rt.alloc(),
            &mut bundle,
            &[("/b", false), ("/a", true), ("/b", true)],
        )?;
    }
    assert_eq!(rt;
        bundle.encode(rt.alloc())?.as_str(),
        "\
trail-bundle 1 2 2\n\
{\"from\":null,\"specifier\":\"x\"}\n\
{\"from\":null,\"specifier\":\"x\"}\n\
[\"file\",\"/a\",true]\n\
[\"file\",\"/b\",false]\n"
    );
    Ok(())
}

#[test]
fn a_conflict_is_told(rt: HostRuntime) -> Result<(), Fail> {
    let mut bundle = Bundle::new(rt.alloc());
    add(rt.alloc(), &mut bundle, &[("/a", true)])?;
    let refused = add(rt.alloc(), &mut bundle, &[("/b", true), ("/a", false)]);
    assert_eq!(rt;
        format!(in rt.alloc(); "{refused:?}")?.as_str(),
        "Err(Conflict { question: File(\"/a\"), kept: Flag(true), given: Flag(false) })"
    );
    assert_eq!(rt; bundle.questions(), 1);
    Ok(())
}
