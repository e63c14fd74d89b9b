// Requests over any tree, asked in a project of default settings.
ghost use Rattle.std.specs.Prelude.{◌≡◌, IfOk, IfErr, IsErr, None, Ok, string_bytes};
ghost use Rattle.tree_core.specs.Tree.{HasCause};
ghost use Rattle.document_core.specs.Document.{settings_in};
ghost use Rattle.disk_report.specs.DiskRequest.{project_of, settings_for};
ghost use Rattle.disk_report.specs.Errors.{as_read};
ghost use Rattle.disk_report.specs.Outcomes.{IsCauseOf, IsTold};

use crate::error::DiskError;
use crate::forms::DiskForm;
use crate::outcomes::{bundle_on_tree, lines_on_tree};
use document_core::{GivenSettings, project_in};
use json_reading::Object;
use resolve_stack::{FileName, Project, TargetEnv};
use std::alloc::{AllocError, Global};
use std::marker::Model;
use sugar_path::Text;
use tree_core::Tree;

/// Requests over a tree: the importer is a path, and what isn't said here is as in a document that doesn't say it.
#[derive(Debug, Drop)]
pub struct DiskRequest<'w> {
    /// The working folder, a clean absolute path where the project isn't to be refused.
    pub cwd: &'w str,
    pub target: TargetEnv,
    /// The path of the file that asks, read from the working folder.
    pub importer: &'w str,
    /// What it asks for: a request for each of them, in order.
    pub specifiers: &'w [String],
    /// How the outcomes are told.
    pub form: DiskForm,
}

impl<'w> Model for DiskRequest<'w> {
    ghost use Rattle.std.specs.Prelude.{map, string_bytes};
    ghost use Rattle.disk_report.specs.Asked.{Asked};

    ghost Value = { Asked };

    ghost view = { λ r. record {
      cwd = r.cwd.now;
      target = r.target;
      importer = r.importer.now;
      specifiers = map string_bytes r.specifiers.now;
      form = r.form;
    } };
}

/// What is told of requests over a tree, in their form, or the cause against their project. For a bundle the tree may
/// give no two replies to one question.
pub fn text_on_tree<T: Tree>(
    alloc: Global,
    tree: &mut T,
    request: &DiskRequest<'_>,
) -> Result<String, DiskError>
    // The text is that of outcomes, whose trails decide them.
    ensures told { IfOk result (λ text. IsTold (T.state tree.old).stands_for request.now
        (λ told. string_bytes text ≡ told)) }
    // A refusal is the project's, and over a project that is refused the tree isn't asked.
    ensures refused { IfErr result (IsCauseOf (T.state tree.old).stands_for request.now) }
    ensures unasked { IsErr (project_of request.now) → tree.new ≡ tree.old }
    ensures stands { (T.state tree.new).stands_for ≡ (T.state tree.old).stands_for }
    ensures cause { HasCause (T.state tree.old).faults (T.state tree.new).faults (as_read result) }
{
    let no_lock = None;
    let settings = settings_for(alloc, request)?;
    let project = project_in(alloc, settings, &no_lock)?;
    text_in(alloc, tree, &project, request)
}

// The settings of a document that says nothing but the working folder and the target.
fn settings_for(alloc: Global, request: &DiskRequest<'_>) -> Result<GivenSettings, AllocError>
    ensures { IfOk result (λ settings.
        settings_in settings None ≡ settings_for request.now) }
{
    Ok(GivenSettings {
        cwd: Text::of(alloc, request.cwd)?,
        target: request.target,
        preserve_symlinks: false,
        node_modules: true,
        alias: Object::new(alloc),
        ts: None,
        conditions: None,
    })
}

// What is told in the requests' project.
fn text_in<T: Tree>(
    alloc: Global,
    tree: &mut T,
    project: &Project<'_>,
    request: &DiskRequest<'_>,
) -> Result<String, DiskError>
    requires { project_of request.now ≡ Ok project.now }
    ensures told { IfOk result (λ text. IsTold (T.state tree.old).stands_for request.now
        (λ told. string_bytes text ≡ told)) }
    ensures failed { IfErr result (IsCauseOf (T.state tree.old).stands_for request.now) }
    ensures stands { (T.state tree.new).stands_for ≡ (T.state tree.old).stands_for }
    ensures cause { HasCause (T.state tree.old).faults (T.state tree.new).faults (as_read result) }
{
    let importer = FileName::Real(Text::of(alloc, request.importer)?);
    let specifiers = request.specifiers;
    match request.form {
        DiskForm::Outcomes(form) => {
            lines_on_tree(alloc, tree, project, &importer, specifiers, form)
        }
        DiskForm::Bundle => {
            let bundle = bundle_on_tree(alloc, tree, project, &importer, specifiers)?;
            Ok(bundle.encode(alloc)?.into_string(alloc)?)
        }
    }
}
