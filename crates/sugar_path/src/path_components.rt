// A path taken apart.
ghost use Rattle.std.specs.Prelude.{◌≡◌};
ghost use Rattle.sugar_path.specs.PathTypes.{path_bytes};
ghost use Rattle.sugar_path.specs.Component.{components_of};

use crate::component::Components;
use crate::path::Path;

/// The components of a path: its root or a leading `.`, and then each `..` and each name.
pub fn components(path: Path<'_>) -> Components<'_>
    ensures { result ≡ components_of (path_bytes path.entry) }
{
    Components::of(path.bytes())
}
