// Why a document is refused.
ghost use Rattle.std.specs.Prelude.{◌≡◌};
ghost use Rattle.document_core.specs.Cause.{name_of};

use pnp_core::HydrationCause;
use resolve_stack::ProjectError;
use std::alloc::AllocError;
use sugar_path::Text;
use tree_core::Question;

/// A field of a document.
#[derive(Clone, Copy, Debug, PartialEq, Eq)]
pub enum Field {
    Cwd,
    Target,
    PreserveSymlinks,
    NodeModules,
    Alias,
    Ts,
    Lock,
    Conditions,
    Files,
    Requests,
    Entries,
    Capacity,
    Steps,
    Scanner,
    Manifest,
    Bundle,
}

impl Field {
    /// The field's key in a document.
    pub fn name(self) -> &'static str
        ensures { result.now ≡ name_of self }
    {
        match self {
            Field::Cwd => "cwd",
            Field::Target => "target",
            Field::PreserveSymlinks => "preserve_symlinks",
            Field::NodeModules => "node_modules",
            Field::Alias => "alias",
            Field::Ts => "ts",
            Field::Lock => "lock",
            Field::Conditions => "conditions",
            Field::Files => "files",
            Field::Requests => "requests",
            Field::Entries => "entries",
            Field::Capacity => "capacity",
            Field::Steps => "steps",
            Field::Scanner => "scanner",
            Field::Manifest => "manifest",
            Field::Bundle => "bundle",
        }
    }
}

/// Why a document is refused, in the order in which the causes count.
#[derive(Debug, Drop)]
pub enum Cause {
    /// The bytes aren't UTF-8 that reads as JSON of at most 127 levels.
    NotJson,
    /// The first field that is missing without a default or of another kind.
    BadField(Field),
    /// The first file that the tree refuses, and the other file on a conflict.
    BadTree { path: Text, other: Option<Text> },
    /// The line at which the text of a bundle isn't that of one.
    BadBundle { line: usize },
    /// Why the settings make no project.
    BadProject(ProjectError),
    /// The first request of a bundle whose order puts a question to which the bundle has no reply, and that question.
    NotRecorded { request: usize, question: Question },
    /// The project has no lock to be audited by.
    NoLock,
    /// Why the file that is to be audited is no manifest.
    Hydration(HydrationCause),
}

/// Why a document gives nothing.
#[derive(Debug, Drop)]
pub enum DocumentError {
    Refused(Cause),
    NoMemory,
}

impl From<AllocError> for DocumentError {
    ghost use Rattle.std.specs.Prelude.{◌≡◌};
    ghost use Rattle.document_core.specs.declared.cause.DocumentError.TheVariants.{NoMemory};

    ghost from_gives = { λ _ e. e ≡ NoMemory };

    fn from(_: AllocError) -> Self {
        DocumentError::NoMemory
    }
}

impl From<ProjectError> for DocumentError {
    ghost use Rattle.std.specs.Prelude.{◌≡◌};
    ghost use Rattle.document_core.specs.Cause.{error_of};

    ghost from_gives = { λ e raised. raised ≡ error_of e };

    fn from(e: ProjectError) -> Self {
        match e {
            ProjectError::NoMemory => DocumentError::NoMemory,
            e => DocumentError::Refused(Cause::BadProject(e)),
        }
    }
}
