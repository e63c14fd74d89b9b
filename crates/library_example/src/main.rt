//! Which file `cart` means, asked from a file of a small shop, and the questions that decided it.
#![tactic(auto)]

use indexmap::IndexMap;
use resolve_stack::{FileName, Project, Settings, TargetEnv, Verdict, resolve_import};
use std::io::{self, ErrorKind};
use sugar_path::Text;
use tree_core::MemoryTree;

fn main(rt: HostRuntime) -> io::Result<()> {
    let alloc = rt.alloc();
    let mut tree = MemoryTree::new(alloc);
    for path in ["/shop/main.js", "/shop/node_modules/cart/index.js"] {
        tree.put(path, b"", path)
            .map_err(|_| ErrorKind::InvalidInput)?;
    }
    let settings = Settings {
        cwd: Text::of(alloc, "/shop")?,
        target: TargetEnv::Node,
        preserve_symlinks: false,
        node_modules: true,
        alias: IndexMap::new(alloc),
        ts: None,
        lock: None,
        conditions: None,
    };
    let project = Project::new(alloc, settings).map_err(|_| ErrorKind::InvalidInput)?;
    let importer = FileName::Real(Text::of(alloc, "/shop/main.js")?);
    let outcome = resolve_import(alloc, &mut tree, &project, &importer, "cart").map_err(
        |_| ErrorKind::Other,
    )?;
    let questions = outcome.trail.len();
    match &outcome.verdict {
        Verdict::Answered(resolution) => match &resolution.found {
            Some(found) => println!(rt; "{} by {questions} questions", found.file.as_str()),
            None => println!(rt; "a name without a file"),
        },
        Verdict::Refused(_) => println!(rt; "refused"),
    }
}
