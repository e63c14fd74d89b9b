// A request of a bundle.
use sugar_path::Text;
use swc_loader::FileName;

/// A request: what asks, and the specifier that it asks for.
#[derive(Debug, Drop, PartialEq, Eq)]
pub struct BundleRequest {
    pub importer: FileName,
    pub specifier: Text,
}
