// Why no graph session is made.
ghost use Rattle.std.specs.Prelude.{◌≡◌};
ghost use Rattle.import_graph.specs.declared.graph_error.GraphError.TheVariants.{NoMemory};

use std::alloc::AllocError;
use thiserror::Error;

/// Why no graph session is made.
#[derive(Debug, Drop, Error)]
pub enum GraphError {
    /// An entry isn't a clean absolute path other than `/`: the first such one stands at this place.
    #[error("the entry at {at} is not clean")]
    UncleanEntry { at: usize },
    #[error("no memory")]
    NoMemory,
}

impl From<AllocError> for GraphError {
    ghost from_gives = { λ _ e. e ≡ NoMemory };

    fn from(_: AllocError) -> Self {
        GraphError::NoMemory
    }
}
