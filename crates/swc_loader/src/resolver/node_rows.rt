// The rows of the order of search for Node's modules.
ghost use Rattle.std.specs.Prelude.{◌≡◌, Err, IfOk, option_map};
ghost use Rattle.sugar_path.specs.Path.{clean};
ghost use Rattle.tree_core.specs.Asks.{Asks};
ghost use Rattle.tree_core.specs.Resolving.{Resolves};
ghost use Rattle.swc_loader.specs.Spelling.{custom};
ghost use Rattle.swc_loader.specs.declared.resolution.FileName.TheVariants.{Real};
ghost use Rattle.swc_loader.specs.declared.refusal.NodeRefusal.TheVariants.{BaseNotAFile};
ghost use Rattle.swc_loader.specs.NodeOrder.{node};
ghost use Rattle.swc_loader.specs.NodeRows.{path_text};
ghost use Rattle.swc_loader.specs.NodeRows as rows;

use crate::located::placed_file;
use crate::search::{joined, place, place_without_entry};
use crate::specifier::is_relative;
use crate::walk::walk;
use crate::{
    Before, Conventions, FileName, Importer, ModuleRule, NodeModulesResolver, NodeRefusal, Placed,
    Readings, Resolution, Searched, TargetEnv,
};
use std::alloc::{AllocError, Global};
use sugar_path::{CleanPath, Text};
use tree_core::{Asker, ReadError, ResolveError};

// What a row searches: its target, and whether a file that is found is told from the working folder.
#[derive(Clone, Copy)]
struct Sought<'t> {
    target: &'t str,
    relative: bool,
}

impl NodeModulesResolver {
    /// The node rows, one after the other.
    pub fn node_order<R: Asker>(
        &self,
        alloc: Global,
        tree: &mut R,
        base: &FileName,
        specifier: &str,
    ) -> Result<Resolution, ResolveError<NodeRefusal>>
        ensures { Resolves (R.asking tree.old) (R.asking tree.new) result
            (node self.now base.now specifier.now) }
    {
        let mut readings = Readings::new(alloc);
        self.node_order_with(alloc, tree, &mut readings, base, specifier)
    }

    /// The node rows, one after the other, with readings that requests share.
    pub fn node_order_with<R: Asker>(
        &self,
        alloc: Global,
        tree: &mut R,
        readings: &mut Readings,
        base: &FileName,
        specifier: &str,
    ) -> Result<Resolution, ResolveError<NodeRefusal>>
        ensures { Resolves (R.asking tree.old) (R.asking tree.new) result
            (node self.now base.now specifier.now) }
    {
        let FileName::Real(text) = base else {
            return self.order_without_importer(alloc, tree, base, specifier);
        };
        let path = CleanPath::read(alloc, self.cwd(), text.as_str())?;
        let importer = Importer {
            text: text.as_str(),
            path: &path,
        };
        self.node_order_from(alloc, tree, readings, &importer, specifier)
    }

    /// The node rows from an importer whose path is read.
    pub fn node_order_from<R: Asker>(
        &self,
        alloc: Global,
        tree: &mut R,
        readings: &mut Readings,
        importer: &Importer<'_>,
        specifier: &str,
    ) -> Result<Resolution, ResolveError<NodeRefusal>>
        requires { importer.now.path.now ≡ clean self.now.cwd importer.now.text.now }
        ensures { Resolves (R.asking tree.old) (R.asking tree.new) result
            (node self.now (Real importer.now.text.now) specifier.now) }
    {
        if let Some(file) = self.probe(alloc, tree, specifier)? {
            let relative = !specifier.starts_with('/');
            return Ok(self.answer(alloc, tree, None, file, relative)?);
        }
        match self.before_search_with(alloc, tree, readings, importer.path, specifier)? {
            Before::Decided(resolution) => Ok(resolution),
            Before::Target(target) => {
                self.search_with(alloc, tree, readings, importer, target.as_str())
            }
        }
    }

    // The node rows from what is no path.
    fn order_without_importer<R: Asker>(
        &self,
        alloc: Global,
        tree: &mut R,
        base: &FileName,
        specifier: &str,
    ) -> Result<Resolution, ResolveError<NodeRefusal>>
        requires { path_text base.now ≡ Err BaseNotAFile }
        ensures { Resolves (R.asking tree.old) (R.asking tree.new) result
            (node self.now base.now specifier.now) }
    {
        if let Some(file) = self.probe(alloc, tree, specifier)? {
            let relative = !specifier.starts_with('/');
            return Ok(self.answer(alloc, tree, None, file, relative)?);
        }
        Err(ResolveError::Refused(NodeRefusal::BaseNotAFile))
    }

    // The file of a specifier that is first looked for from the working folder.
    fn probe<R: Asker>(
        &self,
        alloc: Global,
        tree: &mut R,
        specifier: &str,
    ) -> Result<Option<CleanPath>, ReadError>
        ensures { Asks (R.asking tree.old) (R.asking tree.new) result
            (rows.probe self.now specifier.now) }
    {
        if !self.is_probed(specifier) {
            return Ok(None);
        }
        let at = CleanPath::read(alloc, &self.cwd, specifier)?;
        place_without_entry(alloc, tree, &self.conventions, specifier, &at)
    }

    // Whether a specifier is first looked for from the working folder.
    fn is_probed(&self, specifier: &str) -> bool
        ensures { result ≡ rows.is_probed self.now specifier.now }
    {
        self.conventions.probes_working_folder() && !specifier.starts_with('.')
    }

    /// What is known of a specifier before a search: the answer by the rules for the importer, or for a builtin module,
    /// else the target.
    pub fn before_search<R: Asker>(
        &self,
        alloc: Global,
        tree: &mut R,
        importer: &CleanPath,
        specifier: &str,
    ) -> Result<Before, ReadError>
        ensures { Asks (R.asking tree.old) (R.asking tree.new) result
            (rows.before_search self.now importer.now specifier.now) }
    {
        let mut readings = Readings::new(alloc);
        self.before_search_with(alloc, tree, &mut readings, importer, specifier)
    }

    /// What is known of a specifier before a search, with readings that the rows of a request share.
    pub fn before_search_with<R: Asker>(
        &self,
        alloc: Global,
        tree: &mut R,
        readings: &mut Readings,
        importer: &CleanPath,
        specifier: &str,
    ) -> Result<Before, ReadError>
        ensures { Asks (R.asking tree.old) (R.asking tree.new) result
            (rows.before_search self.now importer.now specifier.now) }
    {
        match self.ruled_specifier(alloc, tree, readings, importer, specifier)? {
            Some(resolution) => Ok(Before::Decided(resolution)),
            None => Ok(self.core_module_or_target(alloc, specifier)?),
        }
    }

    // What the rules for an importer decide of a specifier.
    fn ruled_specifier<R: Asker>(
        &self,
        alloc: Global,
        tree: &mut R,
        readings: &mut Readings,
        importer: &CleanPath,
        specifier: &str,
    ) -> Result<Option<Resolution>, ReadError>
        ensures { Asks (R.asking tree.old) (R.asking tree.new) result
            (rows.ruled_specifier self.now importer.now specifier.now) }
    {
        match self.module_rule_with(alloc, tree, readings, importer, specifier)? {
            ModuleRule::NoRule => Ok(None),
            ModuleRule::Ignored => Ok(Some(Resolution::custom(Text::of(alloc, specifier)?))),
            ModuleRule::File(file) => {
                let relative = file.is_below(self.cwd());
                Ok(Some(self.answer(alloc, tree, None, file, relative)?))
            }
        }
    }

    // What a specifier comes to where no rule decides it.
    fn core_module_or_target(&self, alloc: Global, specifier: &str) -> Result<Before, AllocError>
        ensures { IfOk result (λ b. b ≡ rows.decided_or_target self.now specifier.now
            (rows.core_module_for self.now.target self.now.conventions specifier.now)) }
    {
        if self.target == TargetEnv::Node {
            if let Some(name) = core_module(alloc, &self.conventions, specifier)? {
                return Ok(Before::Decided(Resolution::custom(name)));
            }
        }
        let specifier = Text::of(alloc, specifier)?;
        match self.alias.get(&specifier) {
            Some(target) => Ok(Before::Target(target.try_clone(alloc)?)),
            None => Ok(Before::Target(specifier)),
        }
    }

    /// The search by a target from an importer's text: an absolute target, one behind the importer's folder, or one in
    /// `node_modules`.
    pub fn search<R: Asker>(
        &self,
        alloc: Global,
        tree: &mut R,
        base: &str,
        target: &str,
    ) -> Result<Resolution, ResolveError<NodeRefusal>>
        ensures { Resolves (R.asking tree.old) (R.asking tree.new) result
            (rows.search self.now base.now target.now) }
    {
        let mut readings = Readings::new(alloc);
        let path = CleanPath::read(alloc, self.cwd(), base)?;
        let importer = Importer {
            text: base,
            path: &path,
        };
        self.search_with(alloc, tree, &mut readings, &importer, target)
    }

    /// The search by a target from an importer whose path is read, with readings that the rows of a request share.
    pub fn search_with<R: Asker>(
        &self,
        alloc: Global,
        tree: &mut R,
        readings: &mut Readings,
        importer: &Importer<'_>,
        target: &str,
    ) -> Result<Resolution, ResolveError<NodeRefusal>>
        requires { importer.now.path.now ≡ clean self.now.cwd importer.now.text.now }
        ensures { Resolves (R.asking tree.old) (R.asking tree.new) result
            (rows.search self.now importer.now.text.now target.now) }
    {
        if target.starts_with('/') {
            return self.search_root(alloc, tree, readings, target);
        }
        if is_relative(target) {
            return self.search_behind(alloc, tree, readings, importer, target);
        }
        if !self.node_modules {
            let text = Text::of(alloc, target)?;
            return Err(ResolveError::Refused(NodeRefusal::NotFound { text }));
        }
        self.search_modules(alloc, tree, readings, importer, target)
    }

    // An absolute target.
    fn search_root<R: Asker>(
        &self,
        alloc: Global,
        tree: &mut R,
        readings: &mut Readings,
        target: &str,
    ) -> Result<Resolution, ResolveError<NodeRefusal>>
        ensures { Resolves (R.asking tree.old) (R.asking tree.new) result
            (rows.at_root self.now target.now) }
    {
        let at = CleanPath::read(alloc, &CleanPath::root(alloc), target)?;
        let context = self.context();
        let found = place(alloc, tree, readings, &context, target, &at)?;
        let sought = Sought {
            target,
            relative: false,
        };
        self.answer_found(alloc, tree, readings, &sought, found)
    }

    // A target behind the folder of the importer.
    fn search_behind<R: Asker>(
        &self,
        alloc: Global,
        tree: &mut R,
        readings: &mut Readings,
        importer: &Importer<'_>,
        target: &str,
    ) -> Result<Resolution, ResolveError<NodeRefusal>>
        requires { importer.now.path.now ≡ clean self.now.cwd importer.now.text.now }
        ensures { Resolves (R.asking tree.old) (R.asking tree.new) result
            (rows.behind_base self.now importer.now.text.now target.now) }
    {
        let folder = base_folder(alloc, tree, importer.path)?;
        let text = joined(alloc, &folder, target)?;
        let at = CleanPath::read(alloc, &CleanPath::root(alloc), text.as_str())?;
        let context = self.context();
        let found = place(alloc, tree, readings, &context, text.as_str(), &at)?;
        let relative = !importer.text.starts_with('/');
        let sought = Sought { target, relative };
        self.answer_found(alloc, tree, readings, &sought, found)
    }

    // A target in the `node_modules` of the folder of the importer, or of one above.
    fn search_modules<R: Asker>(
        &self,
        alloc: Global,
        tree: &mut R,
        readings: &mut Readings,
        importer: &Importer<'_>,
        target: &str,
    ) -> Result<Resolution, ResolveError<NodeRefusal>>
        requires { importer.now.path.now ≡ clean self.now.cwd importer.now.text.now }
        ensures { Resolves (R.asking tree.old) (R.asking tree.new) result
            (rows.walked self.now importer.now.text.now target.now) }
    {
        let folder = base_folder(alloc, tree, importer.path)?;
        let context = self.context();
        let found = walk(alloc, tree, readings, &context, target, &folder)?;
        let sought = Sought {
            target,
            relative: true,
        };
        self.answer_found(alloc, tree, readings, &sought, found)
    }

    // What a search by a target comes to: a file by the rules for it.
    fn answer_found<R: Asker>(
        &self,
        alloc: Global,
        tree: &mut R,
        readings: &mut Readings,
        sought: &Sought<'_>,
        found: Searched,
    ) -> Result<Resolution, ResolveError<NodeRefusal>>
        ensures { Resolves (R.asking tree.old) (R.asking tree.new) result
            (rows.answer_found self.now sought.now.target.now sought.now.relative found) }
    {
        match placed_file(alloc, tree, readings, self, sought.target, found)? {
            Placed::File { path, rewritten } => {
                let relative = if rewritten {
                    path.is_below(self.cwd())
                } else {
                    sought.relative
                };
                Ok(self.answer(alloc, tree, None, path, relative)?)
            }
            Placed::Ignored(name) => Ok(Resolution::custom(name)),
        }
    }
}

// The name that a specifier is answered by where it means a builtin module.
fn core_module(
    alloc: Global,
    conventions: &Conventions,
    specifier: &str,
) -> Result<Option<Text>, AllocError>
    ensures { IfOk result (λ name.
        option_map custom name ≡ rows.core_module conventions.now specifier.now) }
{
    if specifier.starts_with("node:") {
        if !conventions.is_schemed(&specifier[5..]) {
            return Ok(None);
        }
        return Ok(Some(Text::of(alloc, specifier)?));
    }
    if !conventions.is_core_module(specifier) {
        return Ok(None);
    }
    let mut name = String::from_str(alloc, "node:")?;
    name.push_str(specifier)?;
    Ok(Some(Text::from(name)))
}

// The folder that an importer stands in, or its own path where that is no file.
fn base_folder<R: Asker>(
    alloc: Global,
    tree: &mut R,
    importer: &CleanPath,
) -> Result<CleanPath, ReadError>
    ensures { Asks (R.asking tree.old) (R.asking tree.new) result (rows.base_folder importer.now) }
{
    let mut folder = importer.try_clone(alloc)?;
    if tree.is_file(&folder)? {
        let _above = folder.go_up();
    }
    Ok(folder)
}
