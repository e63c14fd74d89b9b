// The lines of a bundle's verdicts, for a replay document.
ghost use Rattle.std.specs.Prelude.{◌≡◌, IfErr, IfOk, string_bytes};
ghost use Rattle.std.specs.Result.{result_map_both};
ghost use Rattle.document_core.specs.Document.{project_in, settings_in};
ghost use Rattle.trail_bundle.specs.Bundle.{IsBundle};
ghost use Rattle.trail_bundle.specs.BundleText.{bundle_text};
ghost use Rattle.trail_bundle.specs.BundleView.{bundle_of};
ghost use Rattle.trail_bundle.specs.Replaying.{AreReplayed};
ghost use Rattle.bundle_report.specs.Replaying.{Answers, IsReplayReport, IsReplayedIn, verdict_lines};
ghost use Rattle.bundle_report.specs.ReplayingParts.{TellsLine, TellsMissed};

use crate::document::{ReplayDocument, read_replay_document};
use document_core::{Cause, DocumentError, GivenSettings, project_in};
use report_core::line_of_verdict;
use resolve_stack::{Project, Verdict};
use std::alloc::{AllocError, Global};
use sugar_path::Text;
use trail_bundle::{Bundle, BundleReplayError, DecodeError};

/// The lines of the verdicts that a replay document's bundle gives, or the first cause against the document.
pub fn replay_report_for(alloc: Global, bytes: &[u8]) -> Result<String, DocumentError>
    ensures { Answers (result_map_both string_bytes (λ e. e) result) (λ told. IsReplayReport told bytes.now) }
{
    let ReplayDocument {
        settings,
        lock,
        bundle,
    } = read_replay_document(alloc, bytes)?;
    let bundle = bundle_in(alloc, &bundle)?;
    lines_by(alloc, &bundle, settings, &lock)
}

// The bundle that a text is.
fn bundle_in(alloc: Global, text: &Text) -> Result<Bundle, DocumentError>
    ensures ok { IfOk result (λ b. text.now ≡ bundle_text (bundle_of b)) }
    ensures valid { IfOk result (λ b. IsBundle (bundle_of b)) }
    ensures wrong { IfErr result (λ e. TellsLine e text.now) }
{
    match Bundle::decode(alloc, text.as_str()) {
        Ok(bundle) => Ok(bundle),
        Err(DecodeError::NotABundle { line }) => {
            Err(DocumentError::Refused(Cause::BadBundle { line }))
        }
        Err(DecodeError::NoMemory) => Err(DocumentError::NoMemory),
    }
}

// The lines of a bundle's verdicts by these settings and a lock.
fn lines_by(
    alloc: Global,
    bundle: &Bundle,
    settings: GivenSettings,
    lock: &Option<Text>,
) -> Result<String, DocumentError>
    ensures { Answers (result_map_both string_bytes (λ e. e) result) (λ told.
        IsReplayedIn told (bundle_of bundle.now) (project_in (settings_in settings lock.now))) }
{
    let project = project_in(alloc, settings, lock)?;
    let verdicts = verdicts_of(alloc, bundle, &project)?;
    Ok(lines_of(alloc, verdicts.as_slice())?)
}

// The verdicts of a bundle's requests in a project.
fn verdicts_of(
    alloc: Global,
    bundle: &Bundle,
    project: &Project<'_>,
) -> Result<Vec<Verdict>, DocumentError>
    ensures ok { IfOk result (λ verdicts. AreReplayed verdicts.items
        (bundle_of bundle.now).replies project.now (bundle_of bundle.now).requests) }
    ensures missed { IfErr result (λ e. TellsMissed e (bundle_of bundle.now) project.now) }
{
    match bundle.replay_all(alloc, project) {
        Ok(verdicts) => Ok(verdicts),
        Err(BundleReplayError::NotRecorded { request, question }) => {
            Err(DocumentError::Refused(Cause::NotRecorded { request, question }))
        }
        Err(BundleReplayError::NoMemory) => Err(DocumentError::NoMemory),
    }
}

// The lines of verdicts, in order.
fn lines_of(alloc: Global, verdicts: &[Verdict]) -> Result<String, AllocError>
    ensures { IfOk result (λ lines. string_bytes lines ≡ verdict_lines verdicts.now) }
{
    let mut lines = String::new(alloc);
    for verdict in verdicts {
        let line = line_of_verdict(alloc, verdict)?;
        lines.push_str(line.as_str())?;
    }
    Ok(lines)
}
