// A package.json as a value.
use indexmap::IndexMap;
use serde_json::{Map, Value};
use sugar_path::{List, Text};

/// What a package.json says. Fields of another kind than theirs count as absent, and unknown ones are passed over.
#[derive(Drop)]
pub struct PackageJson {
    /// By subpath: each key begins with `.`.
    pub exports: Option<Map<String, Value>>,
    pub imports: Option<Map<String, Value>>,
    pub bin: Option<Value>,
    pub(crate) main: Option<Text>,
    pub(crate) module: Option<Text>,
    pub name: Option<Text>,
    pub version: Option<Text>,
    /// Where the file lies.
    pub path: Text,
    /// `module`, `commonjs` or `none`.
    pub typ: Text,
    pub types: Option<Text>,
    /// Versions, ranges and tags by the name of the package.
    pub dependencies: Option<IndexMap<Text, Text>>,
    pub dev_dependencies: Option<IndexMap<Text, Text>>,
    pub scripts: Option<IndexMap<Text, Text>>,
    pub workspaces: Option<List<Text>>,
}
