// The components of a path, one after the other.
ghost use Rattle.std.specs.Prelude.{◌≡◌, ◌∷◌, ◌++◌, [], IsNone};
ghost use Rattle.sugar_path.specs.Path.{parts};
ghost use Rattle.sugar_path.specs.Component.{pieces, beginning, components_of};
ghost use Rattle.sugar_path.specs.ComponentTypes.{told_if, parts_if};

use crate::part::{Lead, lead_of};
use crate::path::Path;
use crate::path_parts::split_first_part;
use crate::reading::is_absolute;
use std::marker::Model;

/// A component of a path, as `std::path::Component` has it.
#[derive(Clone, Copy)]
pub enum Component<'a> {
    /// The `/` that an absolute path begins with.
    RootDir,
    /// A `.` as the first part of a relative path. Others are no components.
    CurDir,
    ParentDir,
    /// The name, as a path of its own.
    Normal(Path<'a>),
}

/// The components of a path, in order.
#[derive(Drop)]
pub struct Components<'a> {
    beginning: Option<Component<'a>>,
    // what stands behind the parts that were read
    rest: Option<&'a [u8]>,
}

impl<'a> Model for Components<'a> {
    ghost use Rattle.std.specs.Prelude.{List};
    ghost use Rattle.sugar_path.specs.Component.{Piece};
    ghost use Rattle.sugar_path.specs.ComponentTypes.{components_left};

    ghost Value = { List Piece };

    ghost view = { λ c. components_left c.beginning c.rest };
}

impl<'a> Components<'a> {
    /// The components of a path.
    pub(crate) fn of(path: &'a [u8]) -> Components<'a>
        ensures { result ≡ components_of path.now }
    {
        Components {
            beginning: beginning_of(path),
            rest: Some(path),
        }
    }
}

impl<'a> Iterator for Components<'a> {
    ghost use Rattle.std.specs.Iterator.{YieldsFirstBy, item_count};
    ghost use Rattle.sugar_path.specs.ComponentTypes.{told};

    type Item = Component<'a>;

    ghost next_gives = { YieldsFirstBy told (λ left. left) };

    ghost remaining = { item_count (λ left. left) };

    fn next(&mut self) -> Option<Component<'a>> {
        if let Some(first) = self.beginning {
            self.beginning = None;
            return Some(first);
        }
        let (component, rest) = next_component(self.rest);
        self.rest = rest;
        component
    }
}

// The first component of the parts that are left, and what stands behind it.
fn next_component(left: Option<&[u8]>) -> (Option<Component<'_>>, Option<&[u8]>)
    ensures found { pieces (parts_if left.entry) ≡ told_if result.0 ++ pieces (parts_if result.1) }
    ensures end { IsNone result.0 → IsNone result.1 }
{
    let mut rest = left;
    while let Some(text) = rest {
        let (part, behind) = split_first_part(text);
        rest = behind;
        if let Some(component) = component_of(part) {
            return (Some(component), rest);
        }
    }
    (None, None)
}

// The component that a part is, if it leads somewhere.
fn component_of(part: &[u8]) -> Option<Component<'_>>
    ensures { told_if result ≡ pieces (part.now ∷ []) }
{
    match lead_of(part) {
        Lead::Nowhere => None,
        Lead::Up => Some(Component::ParentDir),
        Lead::Down => Some(Component::Normal(Path::of_bytes(part))),
    }
}

// What a path begins with, if that is its root or a `.`.
fn beginning_of(path: &[u8]) -> Option<Component<'_>>
    ensures { told_if result ≡ beginning path.now }
{
    if is_absolute(path) {
        return Some(Component::RootDir);
    }
    let (first, _) = split_first_part(path);
    if first == b".".as_slice() {
        Some(Component::CurDir)
    } else {
        None
    }
}
