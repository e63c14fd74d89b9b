// The bundle of a document's requests.
ghost use Rattle.std.specs.Prelude.{◌≡◌, IfOk, OnOk, string_bytes};
ghost use Rattle.std.specs.Result.{result_map_both};
ghost use Rattle.document_core.specs.Cause.{Meets};
ghost use Rattle.document_core.specs.Document.{project_in, settings_in};
ghost use Rattle.document_core.specs.Outcomes.{outcome_on};
ghost use Rattle.trail_bundle.specs.Adding.{IsAdded, request_for};
ghost use Rattle.trail_bundle.specs.BundleText.{bundle_text};
ghost use Rattle.trail_bundle.specs.BundleView.{bundle_of};
ghost use Rattle.bundle_report.specs.Bundling.{bundle_on, bundle_report, text_by};

use document_core::{
    Document, DocumentError, GivenRequest, GivenSettings, outcome_of, project_in, read_document,
    tree_of,
};
use resolve_stack::{KnownTree, Project};
use std::alloc::{AllocError, Global};
use sugar_path::Text;
use trail_bundle::Bundle;
use tree_core::MemoryTree;

/// The text of the bundle of a document's requests, or the first cause against it.
pub fn bundle_report_for(alloc: Global, bytes: &[u8]) -> Result<String, DocumentError>
    ensures { Meets (result_map_both string_bytes (λ e. e) result) (bundle_report bytes.now) }
{
    let Document {
        settings,
        lock,
        files,
        requests,
    } = read_document(alloc, bytes)?;
    let tree = tree_of(alloc, files.as_slice())?;
    let text = text_by(alloc, tree, settings, &lock, requests.as_slice())?;
    Ok(text.into_string(alloc)?)
}

// The text of the bundle by these settings and a lock.
fn text_by(
    alloc: Global,
    tree: MemoryTree,
    settings: GivenSettings,
    lock: &Option<Text>,
    requests: &[GivenRequest],
) -> Result<Text, DocumentError>
    ensures { Meets result
        (text_by tree.files requests.now (project_in (settings_in settings lock.now))) }
{
    let project = project_in(alloc, settings, lock)?;
    let mut tree = KnownTree::of(alloc, tree);
    let bundle = bundle_on(alloc, &mut tree, &project, requests)?;
    Ok(bundle.encode(alloc)?)
}

// The bundle of the requests, in order.
fn bundle_on(
    alloc: Global,
    tree: &mut KnownTree,
    project: &Project<'_>,
    requests: &[GivenRequest],
) -> Result<Bundle, AllocError>
    ensures { IfOk result (λ bundle.
        bundle_of bundle ≡ bundle_on tree.old.files project.now requests.now) }
{
    let mut bundle = Bundle::new(alloc);
    for request in requests {
        add(alloc, tree, project, &mut bundle, request)?;
    }
    Ok(bundle)
}

// Adds a request with its trail. The trails of one tree have no conflict.
fn add(
    alloc: Global,
    tree: &mut KnownTree,
    project: &Project<'_>,
    bundle: &mut Bundle,
    request: &GivenRequest,
) -> Result<(), AllocError>
    ensures added { OnOk result (IsAdded (request_for request.now.importer request.now.specifier)
        (outcome_on tree.old.files project.now request.now).trail
        (bundle_of bundle.old) (bundle_of bundle.new)) }
    ensures files { tree.new.files ≡ tree.old.files }
{
    let outcome = outcome_of(alloc, tree, project, request)?;
    match bundle.add(
        &request.importer,
        request.specifier.as_str(),
        &outcome.trail,
    ) {
        Ok(()) => Ok(()),
        Err(_) => Err(AllocError),
    }
}
