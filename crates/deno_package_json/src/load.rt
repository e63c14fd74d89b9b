// A package.json from its JSON.
ghost use Rattle.std.specs.Prelude.{◌≡◌, IfOk, codes, option_map};
ghost use Rattle.serde_json.specs.Find.{get};
ghost use Rattle.serde_json.specs.View.{view, members_view};
ghost use Rattle.deno_package_json.specs.Exports.{exports_in};
ghost use Rattle.deno_package_json.specs.LoadedAgain.{HasOrderedTables, IsAsLoaded, IsOrderedIfThere};
ghost use Rattle.deno_package_json.specs.Fields.{imports_in, table_under, text_under, texts_under, typ_in, types_in};
ghost use Rattle.deno_package_json.specs.Loading.{Loads, from_text, from_value, package_in};
ghost use Rattle.deno_package_json.specs.Package.{empty_package, package_of};

use crate::error::PackageJsonLoadError;
use crate::exports::{bin_in, exports_in, has_mixed_exports, imports_in};
use crate::fields::{text_under, typ_in, types_in};
use crate::package_json::PackageJson;
use crate::tables::{table_under, texts_under};
use indexmap::IndexMap;
use json_reading::holds_float;
use serde_json::{Map, Value};
use std::alloc::{AllocError, Global};
use sugar_path::{List, Text};

impl PackageJson {
    /// The package of a JSON value, whose file is told to be at the path. What isn't an object counts as an empty one.
    pub fn load_from_value(
        alloc: Global,
        path: Text,
        value: &Value,
    ) -> Result<PackageJson, PackageJsonLoadError>
        ensures loads { Loads result (from_value path (view value.now)) }
        ensures path { IfOk result (λ p. p.path ≡ path) }
        ensures as_loaded { IfOk result (λ p. IsAsLoaded (package_of p)) }
    {
        if holds_float(value) {
            return Err(PackageJsonLoadError::HoldsFloat { path });
        }
        if has_mixed_exports(value) {
            return Err(PackageJsonLoadError::MixedExports { path });
        }
        Ok(package_in(alloc, path, value)?)
    }

    /// The package of a text, whose file is told to be at the path. White space alone is an empty package.
    pub fn load_from_string(
        alloc: Global,
        path: Text,
        source: &str,
    ) -> Result<PackageJson, PackageJsonLoadError>
        ensures loads { Loads result (from_text path source.now) }
        ensures path { IfOk result (λ p. p.path ≡ path) }
        ensures as_loaded { IfOk result (λ p. IsAsLoaded (package_of p)) }
    {
        if source.trim().is_empty() {
            return Ok(empty_package(alloc, path)?);
        }
        match Value::from_str(alloc, source) {
            Ok(value) => PackageJson::load_from_value(alloc, path, &value),
            Err(e) => if e.is_memory() {
                Err(PackageJsonLoadError::NoMemory)
            } else {
                Err(PackageJsonLoadError::Deserialize { path })
            },
        }
    }
}

// The package of a file that says nothing.
fn empty_package(alloc: Global, path: Text) -> Result<PackageJson, AllocError>
    ensures fields { IfOk result (λ p. package_of p ≡ empty_package path) }
    ensures path { IfOk result (λ p. p.path ≡ path) }
    ensures as_loaded { IfOk result (λ p. IsAsLoaded (package_of p)) }
{
    let typ = Text::of(alloc, "none")?;
    Ok(PackageJson {
        exports: None,
        imports: None,
        bin: None,
        main: None,
        module: None,
        name: None,
        version: None,
        path,
        typ,
        types: None,
        dependencies: None,
        dev_dependencies: None,
        scripts: None,
        workspaces: None,
    })
}

// The fields of a value that has passed the tests.
fn package_in(alloc: Global, path: Text, value: &Value) -> Result<PackageJson, AllocError>
    ensures fields { IfOk result (λ p. package_of p ≡ package_in path (view value.now)) }
    ensures path { IfOk result (λ p. p.path ≡ path) }
    ensures tables { IfOk result (λ p. HasOrderedTables (package_of p)) }
{
    let entries = Entries::of(alloc, value)?;
    let texts = Texts::of(alloc, value)?;
    let tables = Tables::of(alloc, value)?;
    Ok(PackageJson {
        exports: entries.exports,
        imports: entries.imports,
        bin: entries.bin,
        main: texts.main,
        module: texts.module,
        name: texts.name,
        version: texts.version,
        path,
        typ: texts.typ,
        types: texts.types,
        dependencies: tables.dependencies,
        dev_dependencies: tables.dev_dependencies,
        scripts: tables.scripts,
        workspaces: tables.workspaces,
    })
}

// The fields that are kept as JSON.
#[derive(Drop)]
struct Entries {
    exports: Option<Map<String, Value>>,
    imports: Option<Map<String, Value>>,
    bin: Option<Value>,
}

impl Entries {
    fn of(alloc: Global, value: &Value) -> Result<Entries, AllocError>
        ensures exports { IfOk result (λ e.
            option_map (λ ms. members_view ms.entries) e.exports ≡ exports_in (view value.now)) }
        ensures imports { IfOk result (λ e.
            option_map (λ ms. members_view ms.entries) e.imports ≡ imports_in (view value.now)) }
        ensures bin { IfOk result (λ e.
            option_map view e.bin ≡ get (codes "bin") (view value.now)) }
    {
        let exports = exports_in(alloc, value)?;
        let imports = imports_in(value)?;
        let bin = bin_in(value)?;
        Ok(Entries {
            exports,
            imports,
            bin,
        })
    }
}

// The fields that are texts.
#[derive(Drop)]
struct Texts {
    main: Option<Text>,
    module: Option<Text>,
    name: Option<Text>,
    version: Option<Text>,
    typ: Text,
    types: Option<Text>,
}

impl Texts {
    fn of(alloc: Global, value: &Value) -> Result<Texts, AllocError>
        ensures main { IfOk result (λ t. t.main ≡ text_under (codes "main") (view value.now)) }
        ensures esm { IfOk result (λ t. t.module ≡ text_under (codes "module") (view value.now)) }
        ensures name { IfOk result (λ t. t.name ≡ text_under (codes "name") (view value.now)) }
        ensures version { IfOk result (λ t.
            t.version ≡ text_under (codes "version") (view value.now)) }
        ensures typ { IfOk result (λ t. t.typ ≡ typ_in (view value.now)) }
        ensures types { IfOk result (λ t. t.types ≡ types_in (view value.now)) }
    {
        let main = text_under(alloc, value, "main")?;
        let module = text_under(alloc, value, "module")?;
        let name = text_under(alloc, value, "name")?;
        let version = text_under(alloc, value, "version")?;
        let typ = typ_in(alloc, value)?;
        let types = types_in(alloc, value)?;
        Ok(Texts {
            main,
            module,
            name,
            version,
            typ,
            types,
        })
    }
}

// The fields that are tables and lists of texts.
#[derive(Drop)]
struct Tables {
    dependencies: Option<IndexMap<Text, Text>>,
    dev_dependencies: Option<IndexMap<Text, Text>>,
    scripts: Option<IndexMap<Text, Text>>,
    workspaces: Option<List<Text>>,
}

impl Tables {
    fn of(alloc: Global, value: &Value) -> Result<Tables, AllocError>
        ensures dependencies { IfOk result (λ t.
            option_map (λ table. table.entries) t.dependencies
            ≡ table_under (codes "dependencies") (view value.now)) }
        ensures dev_dependencies { IfOk result (λ t.
            option_map (λ table. table.entries) t.dev_dependencies
            ≡ table_under (codes "devDependencies") (view value.now)) }
        ensures scripts { IfOk result (λ t.
            option_map (λ table. table.entries) t.scripts
            ≡ table_under (codes "scripts") (view value.now)) }
        ensures workspaces { IfOk result (λ t.
            t.workspaces ≡ texts_under (codes "workspaces") (view value.now)) }
        ensures dependencies_ordered { IfOk result (λ t.
            IsOrderedIfThere (option_map (λ table. table.entries) t.dependencies)) }
        ensures dev_dependencies_ordered { IfOk result (λ t.
            IsOrderedIfThere (option_map (λ table. table.entries) t.dev_dependencies)) }
        ensures scripts_ordered { IfOk result (λ t.
            IsOrderedIfThere (option_map (λ table. table.entries) t.scripts)) }
    {
        let dependencies = table_under(alloc, value, "dependencies")?;
        let dev_dependencies = table_under(alloc, value, "devDependencies")?;
        let scripts = table_under(alloc, value, "scripts")?;
        let workspaces = texts_under(alloc, value, "workspaces")?;
        Ok(Tables {
            dependencies,
            dev_dependencies,
            scripts,
            workspaces,
        })
    }
}
