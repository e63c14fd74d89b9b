// A resolver of Node's modules.
mod node_rows;

use crate::browser_rules::{rule_for, ruled_file, rules_at};
use crate::located::search_at;
use crate::spelling::spelled_name;
use crate::{
    Conventions, FileName, Found, ModuleRule, NodeRefusal, Placed, Readings, Resolution, Rule,
    SearchContext, Source, TargetEnv, Via,
};
use indexmap::IndexMap;
use std::alloc::{AllocError, Global};
use std::marker::Model;
use sugar_path::{CleanPath, List, Text};
use tree_core::{Asker, ReadError, ResolveError};

/// A resolver of Node's modules: relative and absolute paths, builtin modules, aliases, packages in `node_modules`, and
/// for browsers the rules of their `browser` maps.
#[derive(Drop)]
pub struct NodeModulesResolver {
    cwd: CleanPath,
    target: TargetEnv,
    alias: IndexMap<Text, Text>,
    preserve_symlinks: bool,
    node_modules: bool,
    conventions: Conventions,
}

impl Model for NodeModulesResolver {
    ghost use Rattle.swc_loader.specs.Settings.{NodeSettings};

    ghost Value = { NodeSettings };

    ghost view = { λ r. record {
      cwd = r.cwd;
      target = r.target;
      alias = r.alias.entries;
      preserve_symlinks = r.preserve_symlinks;
      node_modules = r.node_modules;
      conventions = r.conventions;
    } };
}

impl NodeModulesResolver {
    ghost use Rattle.std.specs.Prelude.{◌≡◌, true, false};
    ghost use Rattle.std.specs.Option.{option_copied};
    ghost use Rattle.sugar_path.specs.Path.{IsCleanPath, path_in};
    ghost use Rattle.tree_core.specs.Asks.{Asks};
    ghost use Rattle.tree_core.specs.Resolving.{Resolves};
    ghost use Rattle.swc_loader.specs.Settings.{settings_of, following};
    ghost use Rattle.swc_loader.specs.Spelling.{spelled, answered};
    ghost use Rattle.swc_loader.specs.BrowserRules.{module_rule, ruled_file, rules_for};
    ghost use Rattle.swc_loader.specs.Located.{resolve_at};

    /// A resolver that reads relative texts from this working folder.
    pub fn new(
        cwd: Text,
        target: TargetEnv,
        alias: IndexMap<Text, Text>,
        preserve_symlinks: bool,
    ) -> NodeModulesResolver
        requires clean { IsCleanPath cwd }
        ensures { result ≡ settings_of (path_in cwd) target alias.entries preserve_symlinks true }
    {
        NodeModulesResolver {
            cwd: CleanPath::from_clean(cwd),
            target,
            alias,
            preserve_symlinks,
            node_modules: true,
            conventions: Conventions::of_order(),
        }
    }

    /// A resolver that reads relative texts from this working folder, and finds nothing in `node_modules`.
    pub fn without_node_modules(
        cwd: Text,
        target: TargetEnv,
        alias: IndexMap<Text, Text>,
        preserve_symlinks: bool,
    ) -> NodeModulesResolver
        requires clean { IsCleanPath cwd }
        ensures { result ≡ settings_of (path_in cwd) target alias.entries preserve_symlinks false }
    {
        NodeModulesResolver {
            cwd: CleanPath::from_clean(cwd),
            target,
            alias,
            preserve_symlinks,
            node_modules: false,
            conventions: Conventions::of_order(),
        }
    }

    /// The resolver with these conventions in place of the order's own.
    pub fn with_conventions(self, conventions: Conventions) -> NodeModulesResolver
        ensures { result ≡ following conventions self }
    {
        let NodeModulesResolver {
            cwd,
            target,
            alias,
            preserve_symlinks,
            node_modules,
            conventions: _,
        } = self;
        NodeModulesResolver {
            cwd,
            target,
            alias,
            preserve_symlinks,
            node_modules,
            conventions,
        }
    }

    /// What is found at the location of a package: without a subpath in its folder, else at the place behind it.
    pub fn resolve_at<R: Asker>(
        &self,
        alloc: Global,
        tree: &mut R,
        location: &CleanPath,
        subpath: Option<&str>,
    ) -> Result<Placed, ResolveError<NodeRefusal>>
        ensures { Resolves (R.asking tree.old) (R.asking tree.new) result
            (resolve_at self.now location.now (option_copied subpath.entry)) }
    {
        let mut readings = Readings::new(alloc);
        self.resolve_at_with(alloc, tree, &mut readings, location, subpath)
    }

    /// What is found at the location of a package, with readings that the rows of a request share.
    pub fn resolve_at_with<R: Asker>(
        &self,
        alloc: Global,
        tree: &mut R,
        readings: &mut Readings,
        location: &CleanPath,
        subpath: Option<&str>,
    ) -> Result<Placed, ResolveError<NodeRefusal>>
        ensures { Resolves (R.asking tree.old) (R.asking tree.new) result
            (resolve_at self.now location.now (option_copied subpath.entry)) }
    {
        search_at(alloc, tree, readings, self, location, subpath)
    }

    /// What is told of a file that was found: the file, the one that a rule for browsers puts in its place, or its path
    /// as a name where a rule ignores it.
    pub fn rewrite_at<R: Asker>(
        &self,
        alloc: Global,
        tree: &mut R,
        file: CleanPath,
    ) -> Result<Placed, ReadError>
        ensures { Asks (R.asking tree.old) (R.asking tree.new) result (ruled_file self.now file) }
    {
        let mut readings = Readings::new(alloc);
        self.rewrite_at_with(alloc, tree, &mut readings, file)
    }

    /// What is told of a file that was found, with readings that the rows of a request share.
    pub fn rewrite_at_with<R: Asker>(
        &self,
        alloc: Global,
        tree: &mut R,
        readings: &mut Readings,
        file: CleanPath,
    ) -> Result<Placed, ReadError>
        ensures { Asks (R.asking tree.old) (R.asking tree.new) result (ruled_file self.now file) }
    {
        ruled_file(alloc, tree, readings, self, file)
    }

    /// What the `browser` rules for an importer say of a specifier. For the target Node there are none.
    pub fn module_rule<R: Asker>(
        &self,
        alloc: Global,
        tree: &mut R,
        importer: &CleanPath,
        specifier: &str,
    ) -> Result<ModuleRule, ReadError>
        ensures { Asks (R.asking tree.old) (R.asking tree.new) result
            (module_rule self.now importer.now specifier.now) }
    {
        let mut readings = Readings::new(alloc);
        self.module_rule_with(alloc, tree, &mut readings, importer, specifier)
    }

    // What the `browser` rules for an importer say of a specifier, with readings that the rows of a request share.
    pub(crate) fn module_rule_with<R: Asker>(
        &self,
        alloc: Global,
        tree: &mut R,
        readings: &mut Readings,
        importer: &CleanPath,
        specifier: &str,
    ) -> Result<ModuleRule, ReadError>
        ensures { Asks (R.asking tree.old) (R.asking tree.new) result
            (module_rule self.now importer.now specifier.now) }
    {
        let about = Source::Specifier(Text::of(alloc, specifier)?);
        rule_for(alloc, tree, readings, self, importer, &about)
    }

    /// The rules of the `browser` map in a folder's package.json, in the byte order of their keys. For the target Node
    /// there are none, and nothing is asked.
    pub fn rules_at<R: Asker>(
        &self,
        alloc: Global,
        tree: &mut R,
        root: &CleanPath,
    ) -> Result<List<Rule>, ReadError>
        ensures { Asks (R.asking tree.old) (R.asking tree.new) result
            (rules_for self.now root.now) }
    {
        match self.target() {
            TargetEnv::Browser => {
                let mut readings = Readings::new(alloc);
                rules_at(alloc, tree, &mut readings, self.conventions(), root)
            }
            TargetEnv::Node => Ok(List::new(alloc)),
        }
    }

    /// The name that a file is answered by: its canonical name, or, where links are preserved, its path, from the
    /// working folder where it is asked for so.
    pub fn answer_file<R: Asker>(
        &self,
        alloc: Global,
        tree: &mut R,
        file: &CleanPath,
        relative: bool,
    ) -> Result<FileName, ReadError>
        ensures { Asks (R.asking tree.old) (R.asking tree.new) result
            (spelled self.now file.now relative) }
    {
        spelled_name(alloc, tree, self, file, relative)
    }

    /// The answer of a file that was found, by way of a row or without one.
    pub fn answer<R: Asker>(
        &self,
        alloc: Global,
        tree: &mut R,
        via: Option<Via>,
        file: CleanPath,
        relative: bool,
    ) -> Result<Resolution, ReadError>
        ensures { Asks (R.asking tree.old) (R.asking tree.new) result
            (answered self.now via file relative) }
    {
        let filename = self.answer_file(alloc, tree, &file, relative)?;
        let file = file.into_text()?;
        Ok(Resolution {
            filename,
            slug: None,
            found: Some(Found { file, via }),
        })
    }

    /// The working folder.
    pub fn cwd(&self) -> &CleanPath
        ensures { result.now ≡ self.now.cwd }
    {
        &self.cwd
    }

    pub(crate) fn conventions(&self) -> &Conventions
        ensures { result.now ≡ self.now.conventions }
    {
        &self.conventions
    }

    // What its searches go by.
    pub(crate) fn context(&self) -> SearchContext<'_>
        ensures conventions { result.conventions.now ≡ self.now.conventions }
        ensures target { result.target ≡ self.now.target }
    {
        SearchContext {
            conventions: &self.conventions,
            target: self.target,
        }
    }

    pub(crate) fn target(&self) -> TargetEnv
        ensures { result ≡ self.now.target }
    {
        self.target
    }

    pub(crate) fn preserves_symlinks(&self) -> bool
        ensures { result ≡ self.now.preserve_symlinks }
    {
        self.preserve_symlinks
    }
}

ghost use Rattle.std.specs.Prelude.{◌≡◌, IfOk};
ghost use Rattle.sugar_path.specs.Path.{IsCleanPath, path_in, text_of, clean};

/// A path read from a working folder, with `.`, `..` and separators resolved lexically.
pub fn to_absolute_path(alloc: Global, cwd: &str, path: &str) -> Result<Text, AllocError>
    requires { IsCleanPath cwd.now }
    ensures { IfOk result (λ t. t ≡ text_of (clean (path_in cwd.now) path.now)) }
{
    sugar_path::clean_text(alloc, cwd, path)
}
