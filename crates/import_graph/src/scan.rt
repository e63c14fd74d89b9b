// What tells the imports of a file.
ghost use Rattle.std.specs.Prelude.{◌≡◌, ℕ, IfOk};
ghost use Rattle.std.specs.Prelude as prelude;
ghost use Rattle.import_graph.specs.Lines.{imports_of};

use crate::lines::scan_lines;
use std::alloc::{AllocError, Global};
use sugar_path::{List, Text};

/// What tells the imports of a file. What they are hangs on the file's bytes alone.
pub trait Scan {
    /// What a file with these bytes imports, in order.
    ghost imports: { prelude.List ℕ → prelude.List (prelude.List ℕ) };

    /// The imports of a file with these bytes.
    fn scan(&self, alloc: Global, bytes: &[u8]) -> Result<List<Text>, AllocError>
        ensures { IfOk result (λ texts. texts ≡ imports bytes.now) };
}

/// Tells the imports of a file by its lines, as `scan_lines` does.
#[derive(Clone, Copy, Debug, Drop)]
pub struct LineScan;

impl Scan for LineScan {
    ghost imports = { imports_of };

    fn scan(&self, alloc: Global, bytes: &[u8]) -> Result<List<Text>, AllocError> {
        scan_lines(alloc, bytes)
    }
}
