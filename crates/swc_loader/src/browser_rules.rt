// The rules that the `browser` map of a package.json gives.
ghost use Rattle.std.specs.Prelude.{◌≡◌, ◌++◌, ◌∷◌, [], IfOk, OnOk, option_map};
ghost use Rattle.serde_json.specs.View.{view, members_view};
ghost use Rattle.tree_core.specs.Asks.{Asks};
ghost use Rattle.swc_loader.specs.BrowserRules as plan;
ghost use Rattle.swc_loader.specs.BrowserRules.{is_source, ruled, place_behind, source_of, map_in, rule_of, rules_of};

use crate::entry::package_in;
use crate::search::{joined, place_without_entry};
use crate::specifier::begins_here;
use crate::{Conventions, NodeModulesResolver, Placed, Readings, TargetEnv};
use serde_json::{Map, Value};
use std::alloc::{AllocError, Global};
use sugar_path::{CleanPath, List, Text};
use tree_core::{Asker, ReadError};

/// What a rule is about.
#[derive(Debug, Drop)]
pub enum Source {
    /// The file that the entry's key means.
    File(CleanPath),
    /// The key itself, as a specifier.
    Specifier(Text),
}

/// A rule of a `browser` map.
#[derive(Debug, Drop)]
pub struct Rule {
    /// What it is about.
    pub source: Source,
    /// The file that stands for the source. None where the source is ignored.
    pub target: Option<CleanPath>,
}

/// What rules say of a file or a specifier.
#[derive(Debug, Drop)]
pub enum ModuleRule {
    NoRule,
    /// It is ignored.
    Ignored,
    /// This file stands for it.
    File(CleanPath),
}

// A file that was found, by the rules for it.
pub(crate) fn ruled_file<R: Asker>(
    alloc: Global,
    tree: &mut R,
    readings: &mut Readings,
    resolver: &NodeModulesResolver,
    file: CleanPath,
) -> Result<Placed, ReadError>
    ensures { Asks (R.asking tree.old) (R.asking tree.new) result
        (plan.ruled_file resolver.now file) }
{
    let copy = file.try_clone(alloc)?;
    let about = Source::File(copy);
    match rule_for(alloc, tree, readings, resolver, &file, &about)? {
        ModuleRule::NoRule => Ok(Placed::File {
            path: file,
            rewritten: false,
        }),
        ModuleRule::Ignored => Ok(Placed::Ignored(file.into_text()?)),
        ModuleRule::File(path) => Ok(Placed::File {
            path,
            rewritten: true,
        }),
    }
}

// What the rules for a path say of a source. For the target Node there are none.
pub(crate) fn rule_for<R: Asker>(
    alloc: Global,
    tree: &mut R,
    readings: &mut Readings,
    resolver: &NodeModulesResolver,
    path: &CleanPath,
    about: &Source,
) -> Result<ModuleRule, ReadError>
    ensures { Asks (R.asking tree.old) (R.asking tree.new) result
        (plan.rule_for resolver.now path.now about.now) }
{
    match resolver.target() {
        TargetEnv::Node => Ok(ModuleRule::NoRule),
        TargetEnv::Browser => {
            let rules = rules_over(alloc, tree, readings, resolver.conventions(), path)?;
            Ok(ruled(alloc, rules.as_slice(), about)?)
        }
    }
}

// What rules say of a source: an ignore wins, else the last.
fn ruled(alloc: Global, rules: &[Rule], about: &Source) -> Result<ModuleRule, AllocError>
    ensures { IfOk result (λ r. r ≡ ruled rules.now about.now) }
{
    let mut last = None;
    for rule in rules {
        if is_source(&rule.source, about) {
            match &rule.target {
                None => return Ok(ModuleRule::Ignored),
                Some(file) => last = Some(file),
            }
        }
    }
    match last {
        None => Ok(ModuleRule::NoRule),
        Some(file) => Ok(ModuleRule::File(file.try_clone(alloc)?)),
    }
}

// Whether two sources are one.
fn is_source(rule: &Source, about: &Source) -> bool
    ensures { result ≡ is_source rule.now about.now }
{
    match (rule, about) {
        (Source::File(file), Source::File(asked)) => *file == *asked,
        (Source::Specifier(text), Source::Specifier(asked)) => text.as_str() == asked.as_str(),
        (Source::File(_), Source::Specifier(_)) => false,
        (Source::Specifier(_), Source::File(_)) => false,
    }
}

// The rules for a path: those of the nearest folder above it that has a package.json.
fn rules_over<R: Asker>(
    alloc: Global,
    tree: &mut R,
    readings: &mut Readings,
    conventions: &Conventions,
    path: &CleanPath,
) -> Result<List<Rule>, ReadError>
    ensures { Asks (R.asking tree.old) (R.asking tree.new) result
        (plan.rules_over conventions.now path.now) }
{
    match root(alloc, tree, path)? {
        Some(folder) => rules_at(alloc, tree, readings, conventions, &folder),
        None => Ok(List::new(alloc)),
    }
}

// The nearest folder above a path that has a package.json.
fn root<R: Asker>(
    alloc: Global,
    tree: &mut R,
    path: &CleanPath,
) -> Result<Option<CleanPath>, ReadError>
    ensures { Asks (R.asking tree.old) (R.asking tree.new) result (plan.root path.now) }
{
    let mut folder = path.try_clone(alloc)?;
    'up: loop {
        if !folder.go_up() {
            return Ok(None);
        }
        let package_json = folder.child(alloc, "package.json")?;
        if tree.is_file(&package_json)? {
            return Ok(Some(folder));
        }
    }
}

// The rules of a folder's package.json.
pub(crate) fn rules_at<R: Asker>(
    alloc: Global,
    tree: &mut R,
    readings: &mut Readings,
    conventions: &Conventions,
    root: &CleanPath,
) -> Result<List<Rule>, ReadError>
    ensures { Asks (R.asking tree.old) (R.asking tree.new) result
        (plan.rules_at conventions.now root.now) }
{
    let package_json = root.child(alloc, "package.json")?;
    let content = tree.read(&package_json)?;
    let Some(package) = package_in(alloc, readings, conventions, content)? else {
        return Ok(List::new(alloc));
    };
    match browser_map(package) {
        Some(entries) => each_rule(alloc, tree, conventions, root, entries),
        None => Ok(List::new(alloc)),
    }
}

// The `browser` map of a package.json.
fn browser_map(package_json: &Value) -> Option<&Map<String, Value>>
    ensures { option_map (λ m. members_view m.now.entries) result ≡ map_in (view package_json.now) }
{
    package_json.get("browser")?.as_object()
}

// The rules of entries, each read in full, in their order.
fn each_rule<R: Asker>(
    alloc: Global,
    tree: &mut R,
    conventions: &Conventions,
    root: &CleanPath,
    entries: &Map<String, Value>,
) -> Result<List<Rule>, ReadError>
    ensures { Asks (R.asking tree.old) (R.asking tree.new) result
        (rules_of conventions.now root.now (members_view entries.now.entries)) }
{
    let mut rules = Vec::new(alloc);
    for (key, value) in entries.iter() {
        if let Some(rule) = entry_rule(alloc, tree, conventions, root, key.as_str(), value)? {
            put_rule(&mut rules, rule)?;
        }
    }
    Ok(List::from(rules))
}

// Puts a rule at the end.
fn put_rule(rules: &mut Vec<Rule>, rule: Rule) -> Result<(), AllocError>
    ensures { OnOk result (rules.new.items ≡ rules.old.items ++ rule ∷ []) }
{
    rules.push(rule)?;
    Ok(())
}

// The rule of an entry, by the kind of its value.
fn entry_rule<R: Asker>(
    alloc: Global,
    tree: &mut R,
    conventions: &Conventions,
    root: &CleanPath,
    key: &str,
    value: &Value,
) -> Result<Option<Rule>, ReadError>
    ensures { Asks (R.asking tree.old) (R.asking tree.new) result
        (rule_of conventions.now root.now key.now (view value.now)) }
{
    if let Some(text) = value.as_str() {
        let about = source_of(alloc, tree, conventions, root, key)?;
        let target = place_behind(alloc, tree, conventions, root, text)?;
        return Ok(placed_rule(about, target));
    }
    // Of the other values `false` alone gives one.
    if value.as_bool().unwrap_or(true) {
        return Ok(None);
    }
    let source = source_of(alloc, tree, conventions, root, key)?;
    let target = None;
    Ok(Some(Rule { source, target }))
}

// The rule by which a file stands for a source; without a file there is none.
fn placed_rule(source: Source, target: Option<CleanPath>) -> Option<Rule>
    ensures { result ≡ plan.placed_rule source target }
{
    match target {
        Some(file) => Some(Rule {
            source,
            target: Some(file),
        }),
        None => None,
    }
}

// What an entry is about.
fn source_of<R: Asker>(
    alloc: Global,
    tree: &mut R,
    conventions: &Conventions,
    root: &CleanPath,
    key: &str,
) -> Result<Source, ReadError>
    ensures { Asks (R.asking tree.old) (R.asking tree.new) result
        (source_of conventions.now root.now key.now) }
{
    if !begins_here(key) {
        return Ok(Source::Specifier(Text::of(alloc, key)?));
    }
    match place_behind(alloc, tree, conventions, root, key)? {
        Some(file) => Ok(Source::File(file)),
        None => Ok(Source::Specifier(Text::of(alloc, key)?)),
    }
}

// The place of a text behind the root of the rules, without entry.
fn place_behind<R: Asker>(
    alloc: Global,
    tree: &mut R,
    conventions: &Conventions,
    root: &CleanPath,
    text: &str,
) -> Result<Option<CleanPath>, ReadError>
    ensures { Asks (R.asking tree.old) (R.asking tree.new) result
        (place_behind conventions.now root.now text.now) }
{
    let text = joined(alloc, root, text)?;
    let at = CleanPath::read(alloc, &CleanPath::root(alloc), text.as_str())?;
    place_without_entry(alloc, tree, conventions, text.as_str(), &at)
}
