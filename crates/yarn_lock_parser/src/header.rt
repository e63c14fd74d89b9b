// The comment lines that a lock file begins with.
ghost use Rattle.std.specs.Prelude.{◌≡◌, option_map};
ghost use Rattle.yarn_lock_parser.specs.Header.{after_bun_line, header_at};

use crate::byte_set::ByteSet;
use crate::front::{line_at, run};
use std::marker::Model;
use sugar_path::after;

/// The program that wrote a lock file.
#[derive(Clone, Copy, Debug, PartialEq, Eq)]
pub enum Generator {
    Yarn,
    Bun,
}

#[derive(Drop)]
pub(crate) struct Header {
    pub(crate) generator: Generator,
    pub(crate) is_first_version: bool,
}

impl Model for Header {
    ghost use Rattle.yarn_lock_parser.specs.Header as specs;

    ghost Value = { specs.Header };

    ghost view = { λ h. record {
      generator = h.generator;
      is_first_version = h.is_first_version;
    } };
}

/// The header, and what follows it and any white space.
#[tactic(auto, unfolding(crate::specs::Header::header_at))]
pub(crate) fn header_at(text: &str) -> Option<(Header, &str)>
    ensures { option_map (λ x. (x.0, x.1.now)) result ≡ header_at text.now }
{
    let (_, rest) = line_at(text)?;
    let (second, rest) = line_at(rest)?;
    let is_first_version = after("# yarn lockfile v1", second).is_some();
    let (generator, rest) = match after_bun_line(rest) {
        Some(behind) => (Generator::Bun, behind),
        None => (Generator::Yarn, rest),
    };
    let (_, rest) = run(ByteSet::WhiteSpace, rest);
    let header = Header {
        generator,
        is_first_version,
    };
    Some((header, rest))
}

#[tactic(auto, unfolding(crate::specs::Header::after_bun_line))]
fn after_bun_line(text: &str) -> Option<&str>
    ensures { option_map (λ t. t.now) result ≡ after_bun_line text.now }
{
    let (third, rest) = line_at(text)?;
    let _ = after("# bun", third)?;
    Some(rest)
}
