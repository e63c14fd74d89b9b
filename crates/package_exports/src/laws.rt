//! Laws of what `exports` means, each a function whose contract is the law.
ghost use Rattle.package_exports.specs.Laws.{ExportedStands, KeyDecides, OwnKeyDecides, TargetStands};

/// Which key of `exports` with a `*` decides: the one that fits and that no other that fits is before.
pub fn key_decides()
    ensures { KeyDecides }
{}

/// A subpath that is a key of `exports` is decided by that key.
pub fn own_key_decides()
    ensures { OwnKeyDecides }
{}

/// A target stands in the value that decides, for an object under the first condition that has one.
pub fn target_stands()
    ensures { TargetStands }
{}

/// What `exports` answers stands in it, under the key that decides.
pub fn exported_stands()
    ensures { ExportedStands }
{}
