// Reads the fields of a document from its JSON value.
ghost use Rattle.std.specs.Prelude.{◌≡◌, codes, option_map};
ghost use Rattle.serde_json.specs.View.{view};
ghost use Rattle.json_reading.specs.Reading.{field_by};
ghost use Rattle.json_reading.specs.Reading as reading;
ghost use Rattle.resolve_stack.specs.Settings.{given};
ghost use Rattle.document_core.specs.Cause.{Meets, name_of};
ghost use Rattle.document_core.specs.Document.{settings_in};
ghost use Rattle.document_core.specs.Fields.{fields_of, project_fields_of, required, settings_of, target_of};
ghost use Rattle.document_core.specs.Mapping.{version_in};
ghost use Rattle.document_core.specs.declared.cause.Field.TheVariants.{Target};
ghost use Rattle.swc_loader.specs.declared.target.TargetEnv.TheVariants.{Browser};

use crate::cause::{Cause, DocumentError, Field};
use crate::given::{GivenFile, GivenRequest};
use crate::mapping::{mapping_in, version_in};
use json_reading::{FromJson, FromJsonError, JsonValue, Object};
use resolve_stack::{Settings, TargetEnv, TsSettings, TsVersion};
use serde_json::Value;
use std::alloc::Global;
use sugar_path::{List, Text};

/// What a document of any kind has: the settings of a project, its lock and its files.
#[derive(Drop)]
pub struct GivenProject {
    pub settings: GivenSettings,
    pub lock: Option<Text>,
    pub files: List<GivenFile>,
}

/// A document whose fields are read.
#[derive(Drop)]
pub struct Document {
    pub settings: GivenSettings,
    pub lock: Option<Text>,
    pub files: List<GivenFile>,
    pub requests: List<GivenRequest>,
}

/// The settings of a document but for its lock, which a project borrows.
pub struct GivenSettings {
    pub cwd: Text,
    pub target: TargetEnv,
    pub preserve_symlinks: bool,
    pub node_modules: bool,
    pub alias: Object<Text>,
    pub ts: Option<TsSettings>,
    pub conditions: Option<List<Text>>,
}

// Written out, so that letting settings go is one step of a proof.
impl Drop for GivenSettings {
    fn drop(self) {
        let GivenSettings {
            cwd: _,
            target: _,
            preserve_symlinks: _,
            node_modules: _,
            alias: _,
            ts: _,
            conditions: _,
        } = self;
    }
}

impl GivenSettings {
    // As the settings of a project, with a lock.
    pub(crate) fn into_settings<'l>(self, lock: Option<&'l str>) -> Settings<'l>
        ensures { given result ≡ settings_in self (option_map (λ text. text.now) lock.entry) }
    {
        let GivenSettings {
            cwd,
            target,
            preserve_symlinks,
            node_modules,
            alias,
            ts,
            conditions,
        } = self;
        Settings {
            cwd,
            target,
            preserve_symlinks,
            node_modules,
            alias: alias.map,
            ts,
            lock,
            conditions,
        }
    }
}

// The document that a JSON value gives, the version of its mapping being read.
pub(crate) fn read_fields<J: JsonValue>(
    alloc: Global,
    value: &J,
    version: Option<TsVersion>,
) -> Result<Document, DocumentError>
    requires { version ≡ version_in (J.stands_for value.now) }
    ensures { Meets result (fields_of (J.stands_for value.now)) }
{
    let GivenProject {
        settings,
        lock,
        files,
    } = project_of(alloc, value, version)?;
    let requests: List<GivenRequest> = required_field(alloc, value, Field::Requests)?;
    Ok(Document {
        settings,
        lock,
        files,
        requests,
    })
}

/// The project that a JSON value gives, or the first cause against its fields.
pub fn read_project(alloc: Global, value: &Value) -> Result<GivenProject, DocumentError>
    ensures { Meets result (project_fields_of (view value.now)) }
{
    project_of(alloc, value, version_in(value))
}

// The project that a JSON value gives, the version of its mapping being read.
fn project_of<J: JsonValue>(
    alloc: Global,
    value: &J,
    version: Option<TsVersion>,
) -> Result<GivenProject, DocumentError>
    requires { version ≡ version_in (J.stands_for value.now) }
    ensures { Meets result (project_fields_of (J.stands_for value.now)) }
{
    let (settings, lock) = settings_of(alloc, value, version)?;
    let files: List<GivenFile> = required_field(alloc, value, Field::Files)?;
    Ok(GivenProject {
        settings,
        lock,
        files,
    })
}

/// The settings that a JSON value gives, and the text of the lock, or the first cause against them.
pub fn read_settings(
    alloc: Global,
    value: &Value,
) -> Result<(GivenSettings, Option<Text>), DocumentError>
    ensures { Meets result (settings_of (view value.now)) }
{
    settings_of(alloc, value, version_in(value))
}

// The settings that a JSON value gives, and the text of the lock, the version of the mapping being read.
#[tactic(auto, unfolding(crate::specs::Fields::settings_of))]
fn settings_of<J: JsonValue>(
    alloc: Global,
    value: &J,
    version: Option<TsVersion>,
) -> Result<(GivenSettings, Option<Text>), DocumentError>
    requires { version ≡ version_in (J.stands_for value.now) }
    ensures { Meets result (settings_of (J.stands_for value.now)) }
{
    let cwd: Text = required_field(alloc, value, Field::Cwd)?;
    let target = target_in(value)?;
    let preserve_symlinks = field_or(alloc, value, Field::PreserveSymlinks, false)?;
    let node_modules = field_or(alloc, value, Field::NodeModules, true)?;
    let alias = field_or(alloc, value, Field::Alias, Object::<Text>::new(alloc))?;
    let ts = mapping_in(alloc, value, version)?;
    let lock: Option<Text> = field_or(alloc, value, Field::Lock, None)?;
    let conditions: Option<List<Text>> = field_or(alloc, value, Field::Conditions, None)?;
    let settings = GivenSettings {
        cwd,
        target,
        preserve_symlinks,
        node_modules,
        alias,
        ts,
        conditions,
    };
    Ok((settings, lock))
}

/// A field that has to be there, or `BadField`.
pub fn required_field<T: FromJson, J: JsonValue>(
    alloc: Global,
    value: &J,
    name: Field,
) -> Result<T, DocumentError>
    ensures { Meets result (required name (field_by (name_of name) T.reads (J.stands_for value.now))) }
{
    match json_reading::field(alloc, value, name.name()) {
        Ok(read) => Ok(read),
        Err(FromJsonError::OtherKind) => Err(DocumentError::Refused(Cause::BadField(name))),
        Err(FromJsonError::NoMemory) => Err(DocumentError::NoMemory),
    }
}

// A field, or what stands for it where it is absent.
fn field_or<T: FromJson, J: JsonValue>(
    alloc: Global,
    value: &J,
    name: Field,
    absent: T,
) -> Result<T, DocumentError>
    ensures { Meets result (required name
        (reading.field_or (name_of name) absent T.reads (J.stands_for value.now))) }
{
    match json_reading::field_or(alloc, value, name.name(), absent) {
        Ok(read) => Ok(read),
        Err(FromJsonError::OtherKind) => Err(DocumentError::Refused(Cause::BadField(name))),
        Err(FromJsonError::NoMemory) => Err(DocumentError::NoMemory),
    }
}

// For what modules are resolved, by default for browsers.
fn target_in<J: JsonValue>(value: &J) -> Result<TargetEnv, DocumentError>
    ensures { Meets result (required Target
        (reading.field_or (codes "target") Browser target_of (J.stands_for value.now))) }
{
    let Some(target) = value.member("target") else {
        return Ok(TargetEnv::Browser);
    };
    match target.as_str() {
        Some("browser") => Ok(TargetEnv::Browser),
        Some("node") => Ok(TargetEnv::Node),
        _ => Err(DocumentError::Refused(Cause::BadField(Field::Target))),
    }
}
