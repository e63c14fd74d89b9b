// Where one part of a path leads.
ghost use Rattle.std.specs.Prelude.{◌≡◌};
ghost use Rattle.sugar_path.specs.Part.{by_kind};

/// Where a part leads from the folder that was reached.
#[derive(Clone, Copy)]
pub(crate) enum Lead {
    Nowhere,
    Up,
    Down,
}

/// The lead of a part: an empty one and `.` stay, `..` goes up, and a name goes down.
#[inline]
pub(crate) fn lead_of(part: &[u8]) -> Lead
    ensures { result ≡ by_kind part.now Lead.Nowhere Lead.Up Lead.Down }
{
    match part {
        b"" | b"." => Lead::Nowhere,
        b".." => Lead::Up,
        _ => Lead::Down,
    }
}
