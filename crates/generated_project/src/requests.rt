// The requests of a generated project.
ghost use Rattle.std.specs.Prelude.{◌≡◌, IfOk, string_bytes};
ghost use Rattle.generated_project.specs.Generated.{asking_file, generated_requests, package_name, package_request};

use crate::tree::package_file;
use document_core::GivenRequest;
use resolve_stack::FileName;
use std::alloc::{AllocError, Global};
use sugar_path::Text;

/// The requests of a project of so many packages.
pub fn generated_requests(alloc: Global, size: usize) -> Result<Vec<GivenRequest>, AllocError>
    ensures { IfOk result (λ requests. requests.items ≡ generated_requests size) }
{
    let mut requests = Vec::new(alloc);
    for i in 0..size {
        requests.push(package_request(alloc, i, i + 1)?)?;
    }
    requests.push(package_request(alloc, size, 1)?)?;
    Ok(requests)
}

// A request for one package from the file of another.
fn package_request(alloc: Global, from: usize, k: usize) -> Result<GivenRequest, AllocError>
    ensures { IfOk result (λ request. request ≡ package_request from k) }
{
    let importer = asking_file(alloc, from)?;
    let name = format!(in alloc; "p{k}")?;
    Ok(GivenRequest {
        importer: FileName::Real(Text::of(alloc, importer.as_str())?),
        specifier: Text::of(alloc, name.as_str())?,
    })
}

// The file of a package, and the one at the top level for none.
fn asking_file(alloc: Global, k: usize) -> Result<String, AllocError>
    ensures { IfOk result (λ path. string_bytes path ≡ asking_file k) }
{
    if k == 0 {
        return String::from_str(alloc, "/g/a.js");
    }
    package_file(alloc, k)
}
