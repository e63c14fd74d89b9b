// What package.jsons were parsed to.
ghost use Rattle.std.specs.Prelude.{◌≡◌, IfOk, option_map};
ghost use Rattle.serde_json.specs.View.{view};
ghost use Rattle.json_reading.specs.Bytes.{json_of};
ghost use Rattle.swc_loader.specs.Readings.{AreKeptOf, AreReadings, IsReadAt};

use crate::content_key::ContentKey;
use indexmap::IndexMap;
use json_reading::{FromJsonError, read_json};
use serde_json::Value;
use std::alloc::{AllocError, Global};
use std::marker::Model;
use sugar_path::Bytes;

// How many contents are kept.
const MOST: usize = 128;

/// What the contents of package.jsons were parsed to, so that a content that several rows or requests read is parsed
/// once. They change no answer: contracts see nothing of what is kept. A content that is one too many takes the place
/// of
/// all of them.
#[derive(Drop)]
pub struct Readings {
    kept: IndexMap<ContentKey, Option<Value>>,
}

impl Model for Readings {
    ghost use Rattle.swc_loader.specs.Readings.{AreReadings};

    ghost Value = { Unit {0} };

    ghost view = { λ _. tt };

    ghost invariant = { λ r. AreReadings r.kept.entries };
}

impl Readings {
    /// Readings that keep nothing yet.
    pub fn new(alloc: Global) -> Readings {
        Readings {
            kept: IndexMap::new(alloc),
        }
    }

    /// The value that a content is, where it is JSON. Only a new content is parsed. Where memory is wanting, it isn't
    /// kept.
    pub fn value_of(&mut self, alloc: Global, content: Bytes) -> Result<Option<&Value>, AllocError>
        ensures { IfOk result (λ found. option_map (λ v. view v.now) found ≡ json_of content) }
    {
        let key = ContentKey::of(content);
        let place = place_of(alloc, &mut self.kept, key)?;
        match self.kept.get_index(place) {
            Some((_, Some(value))) => Ok(Some(value)),
            _ => Ok(None),
        }
    }
}

// The place of what a content is parsed to. A new content is parsed, and kept at the end.
fn place_of(
    alloc: Global,
    kept: &mut IndexMap<ContentKey, Option<Value>>,
    key: ContentKey,
) -> Result<usize, AllocError>
    requires { AreReadings kept.old.entries }
    ensures kept { AreReadings kept.new.entries }
    ensures place { IfOk result (λ place. IsReadAt kept.new.entries place key) }
{
    if let Some(place) = kept.get_index_of(&key) {
        return Ok(place);
    }
    let value = parsed(alloc, key.content().as_slice())?;
    make_room(kept);
    let (place, _) = kept.insert_full(key, value)?;
    Ok(place)
}

/// Makes room for one more content: where no more are to be kept, all go. What stays is what was kept.
pub fn make_room<V: Drop>(kept: &mut IndexMap<ContentKey, V>)
    ensures { AreKeptOf kept.old.entries kept.new.entries }
{
    if kept.len() >= MOST {
        kept.clear();
    }
}

// The value that bytes are, where they are JSON.
fn parsed(alloc: Global, bytes: &[u8]) -> Result<Option<Value>, AllocError>
    ensures { IfOk result (λ value. option_map view value ≡ json_of bytes.now) }
{
    match read_json(alloc, bytes) {
        Ok(value) => Ok(Some(value)),
        Err(FromJsonError::OtherKind) => Ok(None),
        Err(FromJsonError::NoMemory) => Err(AllocError),
    }
}
