// Why nothing is told of requests over a tree.
use document_core::{Cause, DocumentError};
use resolve_stack::ImportError;
use std::alloc::AllocError;
use trail_bundle::BundleError;

/// Why nothing is told of requests over a tree.
#[derive(Debug, Drop)]
pub enum DiskError {
    /// The working folder makes no project.
    Refused(Cause),
    /// A question to the tree failed. Its count of faults rose, or stands at its last value.
    TreeFault,
    /// The tree gave two replies to one question, in the trails of two requests of a bundle.
    TwoReplies,
    /// No memory was found.
    NoMemory,
}

impl From<AllocError> for DiskError {
    ghost use Rattle.std.specs.Prelude.{◌≡◌};
    ghost use Rattle.disk_report.specs.declared.error.DiskError.TheVariants.{NoMemory};

    ghost from_gives = { λ _ e. e ≡ NoMemory };

    fn from(_: AllocError) -> Self {
        DiskError::NoMemory
    }
}

impl From<DocumentError> for DiskError {
    ghost use Rattle.std.specs.Prelude.{◌≡◌};
    ghost use Rattle.disk_report.specs.Errors.{of_document};

    ghost from_gives = { λ e raised. raised ≡ of_document e };

    fn from(e: DocumentError) -> Self {
        match e {
            DocumentError::Refused(cause) => DiskError::Refused(cause),
            DocumentError::NoMemory => DiskError::NoMemory,
        }
    }
}

impl From<ImportError> for DiskError {
    ghost use Rattle.std.specs.Prelude.{◌≡◌};
    ghost use Rattle.disk_report.specs.Errors.{of_import};

    ghost from_gives = { λ e raised. raised ≡ of_import e };

    fn from(e: ImportError) -> Self {
        match e {
            ImportError::TreeFault => DiskError::TreeFault,
            ImportError::NoMemory => DiskError::NoMemory,
        }
    }
}

impl From<BundleError> for DiskError {
    ghost use Rattle.std.specs.Prelude.{◌≡◌};
    ghost use Rattle.disk_report.specs.Errors.{of_bundle};

    ghost from_gives = { λ e raised. raised ≡ of_bundle e };

    fn from(e: BundleError) -> Self {
        match e {
            BundleError::Conflict {
                question: _,
                kept: _,
                given: _,
            } => DiskError::TwoReplies,
            BundleError::NoMemory => DiskError::NoMemory,
        }
    }
}
