// The manifest of a generated project.
ghost use Rattle.std.specs.Prelude.{◌≡◌, ◌+◌, ◌^◌, ◌<◌, IfOk, string_bytes};
ghost use Rattle.generated_project.specs.Generated.{
  binding,
  bindings,
  manifest_text,
  package_row,
  row_front,
  row_place,
};

use std::alloc::{AllocError, Global};

const FRONT: &str =
    "const RAW_RUNTIME_STATE =\n'{\"dependencyTreeRoots\":[],\"enableTopLevelFallback\":false,\"ignorePatternData\":null,\"fallbackExclusionList\":[],\"fallbackPool\":[],\"packageRegistryData\":[[null,[[null,{\"packageLocation\":\"./\",\"packageDependencies\":[[\"p1\",\"npm:1.0.0\"]]}]]]";

const END: &str = "]}';\n";

/// The text of the manifest of a project of so many packages.
pub fn manifest_text(alloc: Global, size: usize) -> Result<String, AllocError>
    ensures { IfOk result (λ text. string_bytes text ≡ manifest_text size) }
{
    let mut text = String::from_str(alloc, FRONT)?;
    for i in 0..size {
        let row = row_of(alloc, size, i + 1)?;
        text.push_str(row.as_str())?;
    }
    text.push_str(END)?;
    Ok(text)
}

// The row of a package, behind another row.
fn row_of(alloc: Global, size: usize, k: usize) -> Result<String, AllocError>
    ensures { IfOk result (λ row. string_bytes row ≡ package_row size k) }
{
    let mut row = row_front(alloc, k)?;
    let place = row_place(alloc, k)?;
    row.push_str(place.as_str())?;
    let bound = bindings(alloc, size, k)?;
    row.push_str(bound.as_str())?;
    row.push_str("]}]]]")?;
    Ok(row)
}

fn row_front(alloc: Global, k: usize) -> Result<String, AllocError>
    ensures { IfOk result (λ front. string_bytes front ≡ row_front k) }
{
    format!(in alloc; ",[\"p{k}\",[[\"npm:1.0.0\",")
}

fn row_place(alloc: Global, k: usize) -> Result<String, AllocError>
    ensures { IfOk result (λ place. string_bytes place ≡ row_place k) }
{
    format!(in alloc; "{{\"packageLocation\":\"./p/{k}/\",\"packageDependencies\":[")
}

// What a package binds.
fn bindings(alloc: Global, size: usize, k: usize) -> Result<String, AllocError>
    ensures { IfOk result (λ bound. string_bytes bound ≡ bindings size k) }
{
    if k < size {
        return binding(alloc, k + 1);
    }
    Ok(String::new(alloc))
}

fn binding(alloc: Global, k: usize) -> Result<String, AllocError>
    ensures { IfOk result (λ bound. string_bytes bound ≡ binding k) }
{
    format!(in alloc; "[\"p{k}\",\"npm:1.0.0\"]")
}
