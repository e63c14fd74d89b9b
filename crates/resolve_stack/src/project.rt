// A project: the settings that stay the same for all its requests.
ghost use Rattle.std.specs.Prelude.{◌≡◌, Ok, IfOk, OnOk, IfErr};
ghost use Rattle.std.specs.Option.{option_copied};
ghost use Rattle.sugar_path.specs.Path.{IsCleanPath, path_in};
ghost use Rattle.resolve_stack.specs.Settings.{given, project_of, mapping_of, lock_in, clean_setting, IsCauseOf};

use indexmap::IndexMap;
use lock_checks::Lock;
use resolver_core::{Mapping, TsError};
use std::alloc::{AllocError, Global};
use std::marker::Model;
use sugar_path::{CleanPath, List, Text, is_clean};
use swc_loader::{NodeModulesResolver, TargetEnv, TsVersion};
use thiserror::Error;
use yarn_lock_parser::{LockCause, YarnLockError, parse_str};

/// The settings of a project.
#[derive(Drop)]
pub struct Settings<'l> {
    /// The working folder, a clean absolute path: relative texts are read from it.
    pub cwd: Text,
    /// For what modules are resolved: browsers have rules of their own.
    pub target: TargetEnv,
    /// Files are answered by their own paths, and not by their canonical names.
    pub preserve_symlinks: bool,
    /// Packages are looked for in `node_modules`.
    pub node_modules: bool,
    /// From whole specifiers to the targets that stand for them.
    pub alias: IndexMap<Text, Text>,
    /// The mapping that requests go through first.
    pub ts: Option<TsSettings>,
    /// The text of a lock file: what it doesn't hold is refused.
    pub lock: Option<&'l str>,
    /// The conditions under which the `exports` of a package that a manifest binds say which file a subpath means, in
    /// the order in which they count. Without them `exports` are passed over.
    pub conditions: Option<List<Text>>,
}

/// The settings of a mapping, as a tsconfig has them.
#[derive(Drop)]
pub struct TsSettings {
    /// The base folder, a clean absolute path: targets are asked for from it.
    pub base_url: Text,
    /// Patterns in their order, each with its targets.
    pub paths: List<(Text, List<Text>)>,
    /// How patterns with text behind their `*` are read.
    pub version: TsVersion,
}

/// Why settings make no project, in the order in which the causes count.
#[derive(Debug, Drop, Error)]
pub enum ProjectError {
    /// The field isn't a clean absolute path.
    #[error("the setting {field} isn't a clean absolute path")]
    SettingsFault { field: Text },
    /// The pattern at this place, from 0, has no target.
    #[error("the pattern at {at} has no target")]
    EmptyTargets { at: usize },
    /// It holds more than one `*`.
    #[error("the pattern at {at} holds more than one `*`")]
    TwoWildcards { at: usize },
    /// It holds no `*`, and has more than one target.
    #[error("the pattern at {at} holds no `*` and has more than one target")]
    ExactNeedsOne { at: usize },
    /// The lock's text is no lock file: what is wrong with it, and at which byte.
    #[error("the lock is no lock file: {cause:?} at {place}")]
    LockParser { place: usize, cause: LockCause },
    /// No memory was found.
    #[error("no memory was found")]
    NoMemory,
}

/// A project that can answer requests.
pub struct Project<'l> {
    node: NodeModulesResolver,
    mapping: Option<Mapping>,
    lock: Option<Lock<'l>>,
    conditions: Option<List<Text>>,
}

// Written out, so that the end of a project is one call to the proofs of what holds it.
impl<'l> Drop for Project<'l> {
    fn drop(self) {
        let Project {
            node: _,
            mapping: _,
            lock: _,
            conditions: _,
        } = self;
    }
}

impl<'l> Model for Project<'l> {
    ghost use Rattle.resolve_stack.specs.Settings.{ProjectSettings};

    ghost Value = { ProjectSettings };

    ghost view = { λ p. record {
      node = p.node;
      mapping = p.mapping;
      lock = p.lock;
      conditions = p.conditions;
    } };
}

impl<'l> Project<'l> {
    /// A project of these settings, or the first cause against them.
    pub fn new(alloc: Global, settings: Settings<'l>) -> Result<Project<'l>, ProjectError>
        ensures ok { IfOk result (λ p. project_of (given settings.entry) ≡ Ok p) }
        ensures clean { OnOk result (IsCleanPath settings.entry.cwd) }
        ensures fault { IfErr result (λ e. IsCauseOf e (project_of (given settings.entry))) }
    {
        let Settings {
            cwd,
            target,
            preserve_symlinks,
            node_modules,
            alias,
            ts,
            lock,
            conditions,
        } = settings;
        check_setting(alloc, "cwd", cwd.as_str())?;
        let mapping = match ts {
            Some(ts) => Some(mapping_of(alloc, ts)?),
            None => None,
        };
        let lock = match lock {
            Some(text) => Some(lock_of(alloc, text)?),
            None => None,
        };
        let node = if node_modules {
            NodeModulesResolver::new(cwd, target, alias, preserve_symlinks)
        } else {
            NodeModulesResolver::without_node_modules(cwd, target, alias, preserve_symlinks)
        };
        Ok(Project {
            node,
            mapping,
            lock,
            conditions,
        })
    }

    /// The working folder.
    pub fn cwd(&self) -> &CleanPath
        ensures { result.now ≡ self.now.node.cwd }
    {
        self.node.cwd()
    }

    // The search for Node's modules with these settings.
    pub(crate) fn node(&self) -> &NodeModulesResolver
        ensures { result.now ≡ self.now.node }
    {
        &self.node
    }

    // The mapping that requests go through first.
    pub(crate) fn mapping(&self) -> Option<&Mapping>
        ensures { option_copied result ≡ self.now.mapping }
    {
        self.mapping.as_ref()
    }

    /// The lock that bindings are held to.
    pub fn lock(&self) -> Option<&Lock<'l>>
        ensures { option_copied result ≡ self.now.lock }
    {
        self.lock.as_ref()
    }

    // The conditions under which exports count.
    pub(crate) fn conditions(&self) -> Option<&List<Text>>
        ensures { option_copied result ≡ self.now.conditions }
    {
        self.conditions.as_ref()
    }
}

// The lock that a text is, or the cause against it.
fn lock_of(alloc: Global, text: &str) -> Result<Lock<'_>, ProjectError>
    ensures ok { IfOk result (λ l. lock_in text.now ≡ Ok l) }
    ensures fault { IfErr result (λ e. IsCauseOf e (lock_in text.now)) }
{
    let file = parse_str(alloc, text)?;
    Ok(Lock::of(alloc, file)?)
}

// The mapping of these settings, or the first cause against them.
fn mapping_of(alloc: Global, ts: TsSettings) -> Result<Mapping, ProjectError>
    ensures ok { IfOk result (λ m. mapping_of ts ≡ Ok m) }
    ensures fault { IfErr result (λ e. IsCauseOf e (mapping_of ts)) }
{
    let TsSettings {
        base_url,
        paths,
        version,
    } = ts;
    check_setting(alloc, "base_url", base_url.as_str())?;
    Ok(Mapping::new(alloc, base_url, paths, version)?)
}

// That a setting is a clean absolute path, or the fault that it isn't.
fn check_setting(alloc: Global, field: &str, text: &str) -> Result<(), ProjectError>
    ensures ok { OnOk result (clean_setting field.now text.now ≡ Ok (path_in text.now)) }
    ensures clean { OnOk result (IsCleanPath text.now) }
    ensures fault { IfErr result (λ e. IsCauseOf e (clean_setting field.now text.now)) }
{
    if !is_clean(text) {
        let field = Text::of(alloc, field)?;
        return Err(ProjectError::SettingsFault { field });
    }
    Ok(())
}

impl From<AllocError> for ProjectError {
    ghost use Rattle.std.specs.Prelude.{◌≡◌};
    ghost use Rattle.resolve_stack.specs.declared.project.ProjectError.TheVariants.{NoMemory};

    ghost from_gives = { λ _ e. e ≡ NoMemory };

    fn from(_: AllocError) -> Self {
        ProjectError::NoMemory
    }
}

impl From<TsError> for ProjectError {
    ghost use Rattle.std.specs.Prelude.{◌≡◌};
    ghost use Rattle.resolve_stack.specs.Settings.{cause_of};

    ghost from_gives = { λ e cause. cause ≡ cause_of e };

    fn from(e: TsError) -> Self {
        match e {
            TsError::EmptyTargets { at } => ProjectError::EmptyTargets { at },
            TsError::TwoWildcards { at } => ProjectError::TwoWildcards { at },
            TsError::ExactNeedsOne { at } => ProjectError::ExactNeedsOne { at },
            TsError::NoMemory => ProjectError::NoMemory,
        }
    }
}

impl From<YarnLockError> for ProjectError {
    ghost use Rattle.std.specs.Prelude.{◌≡◌};
    ghost use Rattle.resolve_stack.specs.Settings.{error_of_lock};

    ghost from_gives = { λ e cause. cause ≡ error_of_lock e };

    fn from(e: YarnLockError) -> Self {
        match e {
            YarnLockError::Parser { place, cause } => ProjectError::LockParser { place, cause },
            YarnLockError::NoMemory => ProjectError::NoMemory,
        }
    }
}
