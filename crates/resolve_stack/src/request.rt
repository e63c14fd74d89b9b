// A request: what asks, and the specifier that it asks for.
use swc_loader::FileName;

// Which specifier is asked for, and by what.
#[derive(Clone, Copy)]
pub(crate) struct Request<'a> {
    pub(crate) importer: &'a FileName,
    pub(crate) specifier: &'a str,
}
