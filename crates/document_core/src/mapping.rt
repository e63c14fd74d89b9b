// Reads the mapping of a document. Of JSON values only those that own their texts tell numbers, so the version of a
// mapping is read apart, and handed to what reads the rest.
ghost use Rattle.std.specs.Prelude.{◌≡◌, None, codes, is_some};
ghost use Rattle.serde_json.specs.View.{view};
ghost use Rattle.json_reading.specs.Reading.{ReadsAs, nullable_by};
ghost use Rattle.json_reading.specs.Reading as reading;
ghost use Rattle.document_core.specs.Cause.{Meets};
ghost use Rattle.document_core.specs.Fields.{required};
ghost use Rattle.document_core.specs.Mapping.{given_version, mapping_of, version_in, version_of};
ghost use Rattle.document_core.specs.declared.cause.Field.TheVariants.{Ts};
ghost use Rattle.swc_loader.specs.declared.ts_version.TsVersion.TheVariants.{V1};

use crate::cause::{Cause, DocumentError, Field};
use json_reading::{FromJsonError, JsonValue, field};
use resolve_stack::{TsSettings, TsVersion};
use serde_json::Value;
use std::alloc::Global;
use sugar_path::{List, Text};

// Whether a document says something of its mapping's version.
pub(crate) fn gives_version<J: JsonValue>(value: &J) -> bool
    ensures { result ≡ is_some (given_version (J.stands_for value.now)) }
{
    match value.member("ts") {
        Some(ts) => ts.member("version").is_some(),
        None => false,
    }
}

// The version of a document's mapping, and None where what it says is none.
pub(crate) fn version_in(value: &Value) -> Option<TsVersion>
    ensures { result ≡ version_in (view value.now) }
{
    match value.get("ts").and_then(|ts| ts.get("version")) {
        Some(version) => version_of(version),
        None => Some(TsVersion::V1),
    }
}

fn version_of(value: &Value) -> Option<TsVersion>
    ensures { result ≡ version_of (view value.now) }
{
    match value.as_u64() {
        Some(1) => Some(TsVersion::V1),
        Some(2) => Some(TsVersion::V2),
        _ => None,
    }
}

// The mapping of a document whose version is read.
pub(crate) fn mapping_in<J: JsonValue>(
    alloc: Global,
    value: &J,
    version: Option<TsVersion>,
) -> Result<Option<TsSettings>, DocumentError>
    requires { version ≡ version_in (J.stands_for value.now) }
    ensures { Meets result (required Ts
        (reading.field_or (codes "ts") None (nullable_by mapping_of) (J.stands_for value.now))) }
{
    let Some(ts) = value.member("ts") else {
        return Ok(None);
    };
    match nullable_mapping(alloc, ts, version) {
        Ok(read) => Ok(read),
        Err(FromJsonError::OtherKind) => Err(DocumentError::Refused(Cause::BadField(Field::Ts))),
        Err(FromJsonError::NoMemory) => Err(DocumentError::NoMemory),
    }
}

// A mapping, or null.
fn nullable_mapping<J: JsonValue>(
    alloc: Global,
    value: &J,
    version: Option<TsVersion>,
) -> Result<Option<TsSettings>, FromJsonError>
    requires { version ≡ reading.field_or (codes "version") V1 version_of (J.stands_for value.now) }
    ensures { ReadsAs result (nullable_by mapping_of (J.stands_for value.now)) }
{
    if value.is_null() {
        return Ok(None);
    }
    Ok(Some(mapping_of(alloc, value, version)?))
}

fn mapping_of<J: JsonValue>(
    alloc: Global,
    value: &J,
    version: Option<TsVersion>,
) -> Result<TsSettings, FromJsonError>
    requires { version ≡ reading.field_or (codes "version") V1 version_of (J.stands_for value.now) }
    ensures { ReadsAs result (mapping_of (J.stands_for value.now)) }
{
    let base_url: Text = field(alloc, value, "base_url")?;
    let paths: List<(Text, List<Text>)> = field(alloc, value, "paths")?;
    match version {
        Some(version) => Ok(TsSettings {
            base_url,
            paths,
            version,
        }),
        None => Err(FromJsonError::OtherKind),
    }
}
