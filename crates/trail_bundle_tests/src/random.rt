// Random trails that are added to a bundle, beside a plain table of what was told of each path.
use std::alloc::{AllocError, Global};
use std::test::Fail;
use sugar_path::Text;
use swc_loader::FileName;
use trail_bundle::{Bundle, BundleError};
use tree_core::{Question, Reply, Trail};

const PATHS: [&str; 6] = ["/a", "/b", "/c", "/d", "/e", "/f"];

// What was told of each path, and how many requests were added.
#[derive(Clone, Copy)]
struct Table {
    told: [Option<bool>; 6],
    requests: u64,
}

// One question of a trail: the place of its path, and the reply.
#[derive(Clone, Copy)]
struct Step {
    place: usize,
    told: bool,
}

fn next(seed: u64) -> u64 {
    seed.wrapping_mul(6364136223846793005)
        .wrapping_add(1442695040888963407)
}

// A step that a number gives: most replies on a path are alike.
fn step_of(seed: u64) -> Step {
    let place = ((seed >> 33) % 6) as usize;
    let flipped = (seed >> 40) % 9 == 0;
    Step {
        place,
        told: (place % 2 == 0) != flipped,
    }
}

// Five steps from a number on.
fn steps_from(seed: u64) -> [Step; 5] {
    let mut steps = [step_of(seed); 5];
    let mut seed = seed;
    for step in steps.iter_mut() {
        seed = next(seed);
        *step = step_of(seed);
    }
    steps
}

// The first reply to each path.
fn first_of(steps: &[Step]) -> [Option<bool>; 6] {
    let mut first = [None; 6];
    for step in steps {
        let place = step.place % 6;
        if first[place].is_none() {
            first[place] = Some(step.told);
        }
    }
    first
}

// Whether no path has two replies.
fn agree(kept: &[Option<bool>; 6], given: &[Option<bool>; 6]) -> bool {
    for place in 0..6 {
        if let (Some(a), Some(b)) = (kept[place], given[place])
            && a != b
        {
            return false;
        }
    }
    true
}

// The table after some steps; as before where a path has two replies.
fn with_steps(table: Table, steps: &[Step]) -> Table {
    let first = first_of(steps);
    if !agree(&table.told, &first) {
        return table;
    }
    let mut told = table.told;
    for place in 0..6 {
        told[place] = told[place].or(first[place]);
    }
    Table {
        told,
        requests: table.requests.saturating_add(1),
    }
}

fn trail_of(alloc: Global, steps: &[Step]) -> Result<Trail, AllocError> {
    let mut trail = Trail::new(alloc);
    for step in steps {
        let question = Question::File(Text::of(alloc, PATHS[step.place % 6])?);
        if trail.push(question, Reply::Flag(step.told)).is_err() {
            return Err(AllocError);
        }
    }
    Ok(trail)
}

// Adds steps to a bundle, which refuses them in a conflict.
fn add(alloc: Global, bundle: &mut Bundle, steps: &[Step]) -> Result<(), AllocError> {
    let trail = trail_of(alloc, steps)?;
    match bundle.add(&FileName::Anon, "x", &trail) {
        Ok(()) | Err(BundleError::Conflict { .. }) => Ok(()),
        Err(BundleError::NoMemory) => Err(AllocError),
    }
}

// The text of the bundle that a table stands for.
fn text_of(alloc: Global, table: &Table) -> Result<String, AllocError> {
    let questions = table.told.iter().filter(|told| told.is_some()).count();
    let requests = table.requests;
    let mut text = format!(in alloc; "trail-bundle 1 {requests} {questions}\n")?;
    for _ in 0..requests {
        text.push_str("{\"from\":null,\"specifier\":\"x\"}\n")?;
    }
    for place in 0..6 {
        if let Some(told) = table.told[place] {
            let path = PATHS[place];
            let line = format!(in alloc; "[\"file\",\"{path}\",{told}]\n")?;
            text.push_str(line.as_str())?;
        }
    }
    Ok(text)
}

// Whether a bundle has the text of a table, and is read from it.
fn is_table(alloc: Global, bundle: &Bundle, table: &Table) -> Result<bool, Fail> {
    let text = text_of(alloc, table)?;
    let read = Bundle::decode(alloc, text.as_str())?;
    Ok(
        bundle.encode(alloc)?.as_str() == text.as_str()
            && read.encode(alloc)?.as_str() == text.as_str(),
    )
}

#[test]
fn random_trails_are_a_table(rt: HostRuntime) -> Result<(), Fail> {
    let alloc = rt.alloc();
    let mut bundle = Bundle::new(alloc);
    let mut table = Table {
        told: [None; 6],
        requests: 0,
    };
    let mut seed = 7;
    for _ in 0..60 {
        seed = next(seed);
        let steps = steps_from(seed);
        add(alloc, &mut bundle, &steps)?;
        table = with_steps(table, &steps);
        assert!(rt; is_table(alloc, &bundle, &table)?);
    }
    // Some were added, and some refused.
    assert!(rt; table.requests > 10 && table.requests < 60);
    Ok(())
}
