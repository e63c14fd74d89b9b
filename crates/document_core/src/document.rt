// What a document's bytes give.
ghost use Rattle.std.specs.Prelude.{◌≡◌, option_map};
ghost use Rattle.std.specs.FinMap as finite;
ghost use Rattle.std.specs.Result.{result_map_both};
ghost use Rattle.resolve_stack.specs.Settings.{given};
ghost use Rattle.document_core.specs.Cause.{Meets};
ghost use Rattle.document_core.specs.Document.{fields_in, project_in, put_file, put_files, settings_in};

use crate::cause::{Cause, DocumentError};
use crate::fields::{Document, GivenSettings, read_fields};
use crate::given::GivenFile;
use crate::json_text::{read_bytes, read_json};
use crate::mapping::{gives_version, version_in};
use json::Scratch;
use json_reading::ReadJson;
use resolve_stack::{Project, Settings, TsVersion};
use std::alloc::Global;
use sugar_path::Text;
use tree_core::{MemoryTree, PutError};

/// The fields of a document's bytes, or the first cause against them.
#[tactic(auto, unfolding(crate::specs::Document::fields_in))]
pub fn read_document(alloc: Global, bytes: &[u8]) -> Result<Document, DocumentError>
    ensures { Meets result (fields_in bytes.now) }
{
    let mut scratch = Scratch::new(alloc);
    match read_bytes(alloc, bytes, &mut scratch)? {
        ReadJson::Borrowed(value) => {
            // It holds no number, so what stands there is no version, and the document is refused.
            if gives_version(&value) {
                drop(value);
                return read_owned(alloc, bytes);
            }
            read_fields(alloc, &value, Some(TsVersion::V1))
        }
        ReadJson::Owned(value) => read_fields(alloc, &value, version_in(&value)),
    }
}

// The fields of a document's bytes, by a value that owns its texts.
#[tactic(auto, unfolding(crate::specs::Document::fields_in))]
fn read_owned(alloc: Global, bytes: &[u8]) -> Result<Document, DocumentError>
    ensures { Meets result (fields_in bytes.now) }
{
    let value = read_json(alloc, bytes)?;
    read_fields(alloc, &value, version_in(&value))
}

// The text that is there, borrowed.
fn text_in(text: &Option<Text>) -> Option<&str>
    ensures { option_map (λ t. t.now) result ≡ text.now }
{
    match text {
        Some(text) => Some(text.as_str()),
        None => None,
    }
}

/// The tree of a document's files, or the cause against the first that is refused.
pub fn tree_of(alloc: Global, files: &[GivenFile]) -> Result<MemoryTree, DocumentError>
    ensures { Meets (result_map_both (λ t. t.files) (λ e. e) result)
        (put_files finite.empty files.now) }
{
    let mut tree = MemoryTree::new(alloc);
    for file in files {
        put(alloc, &mut tree, file)?;
    }
    Ok(tree)
}

// Puts one file into the tree.
#[tactic(auto, unfolding(crate::specs::Document::put_file))]
fn put(alloc: Global, tree: &mut MemoryTree, file: &GivenFile) -> Result<(), DocumentError>
    ensures { Meets (result_map_both (λ _. tree.new.files) (λ e. e) result)
        (put_file tree.old.files file.now) }
{
    let other = match tree.put_shared(&file.path, &file.content, &file.canonical) {
        Ok(()) => return Ok(()),
        Err(PutError::Unclean) => None,
        Err(PutError::Conflict { other }) => Some(other),
        Err(PutError::NoMemory) => return Err(DocumentError::NoMemory),
    };
    let path = file.path.try_clone(alloc)?;
    Err(DocumentError::Refused(Cause::BadTree { path, other }))
}

/// The project of a document's settings, with its lock, or the cause against them.
pub fn project_in(
    alloc: Global,
    settings: GivenSettings,
    lock: &Option<Text>,
) -> Result<Project<'_>, DocumentError>
    ensures { Meets result (project_in (settings_in settings lock.now)) }
{
    project_of(alloc, settings.into_settings(text_in(lock)))
}

fn project_of<'l>(alloc: Global, settings: Settings<'l>) -> Result<Project<'l>, DocumentError>
    ensures { Meets result (project_in (given settings.entry)) }
{
    Ok(Project::new(alloc, settings)?)
}
