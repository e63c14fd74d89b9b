// Calls as rows write them: `NAME: ARGUMENTS`.
use crate::words::{
    tell_before, tell_came, tell_entry, tell_module_rule, tell_name, tell_placed, tell_resolution,
    tell_rules, tell_searched,
};
use std::alloc::{AllocError, Global};
use std::test::Fail;
use sugar_path::{Bytes, CleanPath, Text};
use swc_loader::{
    Conventions, FileName, Importer, NodeModulesResolver, Readings, SearchContext, TargetEnv,
    entry_of, folder, is_bare, is_closed, place, to_absolute_path,
};
use tree_core::{MemoryTree, Recorder};

// Tells what a call comes to that takes a text alone.
pub(crate) fn tell_text_call(alloc: Global, out: &mut String, call: &str) -> Result<(), Fail> {
    let (name, text) = call.split_once(' ').ok_or("no text")?;
    match name {
        "entry_of:" => tell_entries(alloc, out, text.as_bytes())?,
        "is_bare:" => out.push_str(if is_bare(text) { "yes" } else { "no" })?,
        "is_closed:" => out.push_str(if is_closed(text) { "yes" } else { "no" })?,
        "to_absolute_path:" => tell_absolute_path(alloc, out, text)?,
        _ => return Err(Fail::from("no call")),
    }
    Ok(())
}

// Tells a path that is read from `/w`.
fn tell_absolute_path(alloc: Global, out: &mut String, path: &str) -> Result<(), AllocError> {
    let cwd = CleanPath::read(alloc, &CleanPath::root(alloc), "w")?;
    let path = to_absolute_path(alloc, cwd.as_str(), path)?;
    out.push_str(path.as_str())
}

// Tells the entries that a content names for a browser and for Node.
pub(crate) fn tell_entries(
    alloc: Global,
    out: &mut String,
    content: &[u8],
) -> Result<(), AllocError> {
    let for_browsers = Bytes::of(alloc, content)?;
    tell_entry_of(alloc, out, TargetEnv::Browser, Some(for_browsers))?;
    let for_node = Bytes::of(alloc, content)?;
    tell_entry_of(alloc, out, TargetEnv::Node, Some(for_node))
}

// Tells the entry that a content names, with a `;` behind it. A file that can't be read has no content.
pub(crate) fn tell_entry_of(
    alloc: Global,
    out: &mut String,
    target: TargetEnv,
    content: Option<Bytes>,
) -> Result<(), AllocError> {
    let mut readings = Readings::new(alloc);
    let conventions = Conventions::of_order();
    let entry = entry_of(alloc, &mut readings, &conventions, target, content)?;
    tell_entry(out, &entry)?;
    out.push_str(";")
}

// Tells what a call comes to that is made over files. Without a name it is a request: a base and a specifier.
pub(crate) fn tell_call(
    alloc: Global,
    out: &mut String,
    resolver: &NodeModulesResolver,
    recorder: &mut Recorder<'_, MemoryTree>,
    call: &str,
) -> Result<(), Fail> {
    let (name, arguments) = call.split_once(' ').ok_or("no arguments")?;
    if name.ends_with(':') {
        tell_named(alloc, out, resolver, recorder, name, arguments)
    } else {
        tell_request(alloc, out, resolver, recorder, name, arguments)
    }
}

fn tell_request(
    alloc: Global,
    out: &mut String,
    resolver: &NodeModulesResolver,
    recorder: &mut Recorder<'_, MemoryTree>,
    base: &str,
    specifier: &str,
) -> Result<(), Fail> {
    let base = base_of(alloc, base)?;
    let came = resolver.node_order(alloc, recorder, &base, specifier);
    Ok(tell_came(out, &came)?)
}

// A base: `-` is a source without a name, and what begins with `<` is no path.
fn base_of(alloc: Global, base: &str) -> Result<FileName, AllocError> {
    if base == "-" {
        return Ok(FileName::Anon);
    }
    let name = Text::of(alloc, base)?;
    Ok(if base.starts_with('<') {
        FileName::Custom(name)
    } else {
        FileName::Real(name)
    })
}

// Tells what a call comes to by its name. It has one argument or two, with a blank between.
fn tell_named(
    alloc: Global,
    out: &mut String,
    resolver: &NodeModulesResolver,
    recorder: &mut Recorder<'_, MemoryTree>,
    name: &str,
    arguments: &str,
) -> Result<(), Fail> {
    let (first, second) = arguments.split_once(' ').unwrap_or((arguments, ""));
    match name {
        "folder:" => tell_folder(alloc, out, recorder, first),
        "place:" => tell_place(alloc, out, recorder, first),
        "rules_at:" => tell_rules_at(alloc, out, resolver, recorder, first),
        "module_rule:" => tell_rule_for(alloc, out, resolver, recorder, first, second),
        "before_search:" => tell_before_search(alloc, out, resolver, recorder, first, second),
        "search:" => tell_search(alloc, out, resolver, recorder, first, second),
        "resolve_at:" => tell_located(alloc, out, resolver, recorder, first, second),
        "rewrite_at:" => tell_rewritten(alloc, out, resolver, recorder, first),
        "node_order_from:" => tell_order_from(alloc, out, resolver, recorder, first, second),
        "answer_file:" => tell_file_name(alloc, out, resolver, recorder, first),
        "answer:" => tell_answer(alloc, out, resolver, recorder, first),
        "with_readings:" => tell_sharing(alloc, out, resolver, recorder, first, second),
        _ => Err(Fail::from("no call")),
    }
}

fn for_node(conventions: &Conventions) -> SearchContext<'_> {
    SearchContext {
        conventions,
        target: TargetEnv::Node,
    }
}

fn tell_folder(
    alloc: Global,
    out: &mut String,
    recorder: &mut Recorder<'_, MemoryTree>,
    path: &str,
) -> Result<(), Fail> {
    let path = CleanPath::read(alloc, &CleanPath::root(alloc), path)?;
    let mut readings = Readings::new(alloc);
    let conventions = Conventions::of_order();
    let context = for_node(&conventions);
    let found = folder(alloc, recorder, &mut readings, &context, &path)?;
    Ok(tell_searched(out, &found)?)
}

fn tell_place(
    alloc: Global,
    out: &mut String,
    recorder: &mut Recorder<'_, MemoryTree>,
    text: &str,
) -> Result<(), Fail> {
    let at = CleanPath::read(alloc, &CleanPath::root(alloc), text)?;
    let mut readings = Readings::new(alloc);
    let conventions = Conventions::of_order();
    let context = for_node(&conventions);
    let found = place(alloc, recorder, &mut readings, &context, text, &at)?;
    Ok(tell_searched(out, &found)?)
}

fn tell_rules_at(
    alloc: Global,
    out: &mut String,
    resolver: &NodeModulesResolver,
    recorder: &mut Recorder<'_, MemoryTree>,
    root: &str,
) -> Result<(), Fail> {
    let root = CleanPath::read(alloc, resolver.cwd(), root)?;
    let rules = resolver.rules_at(alloc, recorder, &root)?;
    Ok(tell_rules(out, rules.as_slice())?)
}

fn tell_rule_for(
    alloc: Global,
    out: &mut String,
    resolver: &NodeModulesResolver,
    recorder: &mut Recorder<'_, MemoryTree>,
    importer: &str,
    specifier: &str,
) -> Result<(), Fail> {
    let importer = CleanPath::read(alloc, resolver.cwd(), importer)?;
    let rule = resolver.module_rule(alloc, recorder, &importer, specifier)?;
    Ok(tell_module_rule(out, &rule)?)
}

fn tell_before_search(
    alloc: Global,
    out: &mut String,
    resolver: &NodeModulesResolver,
    recorder: &mut Recorder<'_, MemoryTree>,
    importer: &str,
    specifier: &str,
) -> Result<(), Fail> {
    let importer = CleanPath::read(alloc, resolver.cwd(), importer)?;
    let before = resolver.before_search(alloc, recorder, &importer, specifier)?;
    Ok(tell_before(out, &before)?)
}

fn tell_search(
    alloc: Global,
    out: &mut String,
    resolver: &NodeModulesResolver,
    recorder: &mut Recorder<'_, MemoryTree>,
    base: &str,
    target: &str,
) -> Result<(), Fail> {
    let came = resolver.search(alloc, recorder, base, target);
    Ok(tell_came(out, &came)?)
}

fn tell_located(
    alloc: Global,
    out: &mut String,
    resolver: &NodeModulesResolver,
    recorder: &mut Recorder<'_, MemoryTree>,
    location: &str,
    subpath: &str,
) -> Result<(), Fail> {
    let subpath = if subpath.is_empty() {
        None
    } else {
        Some(subpath)
    };
    let location = CleanPath::read(alloc, resolver.cwd(), location)?;
    let placed = resolver.resolve_at(alloc, recorder, &location, subpath)?;
    Ok(tell_placed(out, &placed)?)
}

fn tell_rewritten(
    alloc: Global,
    out: &mut String,
    resolver: &NodeModulesResolver,
    recorder: &mut Recorder<'_, MemoryTree>,
    file: &str,
) -> Result<(), Fail> {
    let file = CleanPath::read(alloc, resolver.cwd(), file)?;
    let placed = resolver.rewrite_at(alloc, recorder, file)?;
    Ok(tell_placed(out, &placed)?)
}

fn tell_order_from(
    alloc: Global,
    out: &mut String,
    resolver: &NodeModulesResolver,
    recorder: &mut Recorder<'_, MemoryTree>,
    text: &str,
    specifier: &str,
) -> Result<(), Fail> {
    let mut readings = Readings::new(alloc);
    let path = CleanPath::read(alloc, resolver.cwd(), text)?;
    let importer = Importer { text, path: &path };
    let came = resolver.node_order_from(alloc, recorder, &mut readings, &importer, specifier);
    Ok(tell_came(out, &came)?)
}

fn tell_file_name(
    alloc: Global,
    out: &mut String,
    resolver: &NodeModulesResolver,
    recorder: &mut Recorder<'_, MemoryTree>,
    file: &str,
) -> Result<(), Fail> {
    let file = CleanPath::read(alloc, resolver.cwd(), file)?;
    let name = resolver.answer_file(alloc, recorder, &file, true)?;
    Ok(tell_name(out, &name)?)
}

fn tell_answer(
    alloc: Global,
    out: &mut String,
    resolver: &NodeModulesResolver,
    recorder: &mut Recorder<'_, MemoryTree>,
    file: &str,
) -> Result<(), Fail> {
    let file = CleanPath::read(alloc, resolver.cwd(), file)?;
    let answer = resolver.answer(alloc, recorder, None, file, false)?;
    Ok(tell_resolution(out, &answer)?)
}

// Tells three calls that share what is parsed: what is searched for `p` from `/w/a.js`, what is found at a
// location, and a search from `/w/a.js`.
fn tell_sharing(
    alloc: Global,
    out: &mut String,
    resolver: &NodeModulesResolver,
    recorder: &mut Recorder<'_, MemoryTree>,
    location: &str,
    target: &str,
) -> Result<(), Fail> {
    let mut readings = Readings::new(alloc);
    tell_before_with(alloc, out, resolver, recorder, &mut readings)?;
    tell_located_with(alloc, out, resolver, recorder, &mut readings, location)?;
    let path = CleanPath::read(alloc, resolver.cwd(), "/w/a.js")?;
    let importer = Importer {
        text: "/w/a.js",
        path: &path,
    };
    let came = resolver.search_with(alloc, recorder, &mut readings, &importer, target);
    Ok(tell_came(out, &came)?)
}

fn tell_before_with(
    alloc: Global,
    out: &mut String,
    resolver: &NodeModulesResolver,
    recorder: &mut Recorder<'_, MemoryTree>,
    readings: &mut Readings,
) -> Result<(), Fail> {
    let importer = CleanPath::read(alloc, resolver.cwd(), "a.js")?;
    let before = resolver.before_search_with(alloc, recorder, readings, &importer, "p")?;
    tell_before(out, &before)?;
    Ok(out.push_str(", ")?)
}

fn tell_located_with(
    alloc: Global,
    out: &mut String,
    resolver: &NodeModulesResolver,
    recorder: &mut Recorder<'_, MemoryTree>,
    readings: &mut Readings,
    location: &str,
) -> Result<(), Fail> {
    let location = CleanPath::read(alloc, resolver.cwd(), location)?;
    let placed = resolver.resolve_at_with(alloc, recorder, readings, &location, None)?;
    tell_placed(out, &placed)?;
    Ok(out.push_str(", ")?)
}
