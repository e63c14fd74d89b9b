// The join: a bare specifier from a file, bound by the row of the package that owns the file. Where a row has nothing
// to go on with, the node rows answer.
ghost use Rattle.std.specs.Prelude.{◌≡◌};
ghost use Rattle.std.specs.Option.{option_copied};
ghost use Rattle.tree_core.specs.Resolving.{Resolves};
ghost use Rattle.tree_core.specs.Rows.{order};
ghost use Rattle.swc_loader.specs.declared.resolution.FileName.TheVariants.{Real};
ghost use Rattle.resolve_stack.specs.Settings.{path_of};
ghost use Rattle.resolve_stack.specs.Request.{request_of};
ghost use Rattle.resolve_stack.specs.Known.{join_by};
ghost use Rattle.resolve_stack.specs.OrderParts.{owned_rows, bare_rows, folder_rows};
ghost use Rattle.resolve_stack.specs.Rows.{node_rows_of};

use crate::exports::exported_file;
use crate::join_rows::{
    Asking, Sought, bare_base, bound_of, checked_row, contained, folder_of, found_at,
    identifier_of, raised, read_manifest,
};
use crate::pnp_resolver::KnownProject;
use crate::request::Request;
use crate::{JoinRefusal, KeptReadings, Project};
use lock_checks::Edge;
use package_readings::PackageReadings;
use pnp_core::{PackageLocator, closest_manifest, owner_of};
use std::alloc::Global;
use sugar_path::{CleanPath, Text};
use swc_loader::{Before, Importer, Placed, Readings, Resolution, Via, is_bare};
use tree_core::{Asker, ResolveError};

// What a request comes to: the join rows, one after the other.
pub(crate) fn join<R: Asker>(
    alloc: Global,
    tree: &mut R,
    known: &KnownProject<'_, '_, '_>,
    kept: &mut KeptReadings,
    request: &Request<'_>,
) -> Result<Resolution, ResolveError<JoinRefusal>>
    ensures { Resolves (R.asking tree.old) (R.asking tree.new) result
        (join_by known.now.known.now known.now.project.now (request_of request.now)) }
{
    let KnownProject { project, known } = *known;
    let KeptReadings {
        manifests,
        packages,
    } = kept;
    let Some(text) = bare_base(request) else {
        return by_node_rows(alloc, tree, &mut packages.values, project, request);
    };
    let path = CleanPath::read(alloc, project.cwd(), text)?;
    let Some(file) = closest_manifest(alloc, tree, &path)? else {
        let importer = Importer { text, path: &path };
        return by_node_rows_from(
            alloc,
            tree,
            &mut packages.values,
            project,
            &importer,
            request,
        );
    };
    let manifest = read_manifest(alloc, tree, known, manifests, file)?;
    let Some(owner) = owner_of(alloc, manifest, &path)? else {
        let importer = Importer { text, path: &path };
        return by_node_rows_from(
            alloc,
            tree,
            &mut packages.values,
            project,
            &importer,
            request,
        );
    };
    let asking = Asking {
        text,
        path: &path,
        manifest,
        owner,
    };
    join_owned(alloc, tree, packages, project, request, &asking)
}

// The node rows of the whole request.
fn by_node_rows<R: Asker>(
    alloc: Global,
    tree: &mut R,
    readings: &mut Readings,
    project: &Project<'_>,
    request: &Request<'_>,
) -> Result<Resolution, ResolveError<JoinRefusal>>
    ensures { Resolves (R.asking tree.old) (R.asking tree.new) result
        (node_rows_of project.now (request_of request.now)) }
{
    let node = project.node();
    let found = node.node_order_with(alloc, tree, readings, request.importer, request.specifier);
    raised(found)
}

// The node rows of the whole request, from an importer whose path is read.
fn by_node_rows_from<R: Asker>(
    alloc: Global,
    tree: &mut R,
    readings: &mut Readings,
    project: &Project<'_>,
    importer: &Importer<'_>,
    request: &Request<'_>,
) -> Result<Resolution, ResolveError<JoinRefusal>>
    requires path { importer.now.path.now ≡ path_of project.now importer.now.text.now }
    requires text { request.now.importer.now ≡ Real importer.now.text.now }
    ensures { Resolves (R.asking tree.old) (R.asking tree.new) result
        (node_rows_of project.now (request_of request.now)) }
{
    let node = project.node();
    let found = node.node_order_from(alloc, tree, readings, importer, request.specifier);
    raised(found)
}

// The rows behind the owner of the importer.
fn join_owned<R: Asker>(
    alloc: Global,
    tree: &mut R,
    packages: &mut PackageReadings,
    project: &Project<'_>,
    request: &Request<'_>,
    asking: &Asking<'_>,
) -> Result<Resolution, ResolveError<JoinRefusal>>
    requires { asking.now.path.now ≡ path_of project.now asking.now.text.now }
    ensures { Resolves (R.asking tree.old) (R.asking tree.new) result
        (order (owned_rows project.now (request_of request.now) asking.now.text.now
        asking.now.manifest.now asking.now.owner.now)) }
{
    let node = project.node();
    let Asking { text, path, .. } = *asking;
    let readings = &mut packages.values;
    let before = node.before_search_with(alloc, tree, readings, path, request.specifier)?;
    let target = match before {
        Before::Decided(resolution) => return Ok(resolution),
        Before::Target(target) => target,
    };
    if !is_bare(target.as_str()) {
        let importer = Importer { text, path };
        let readings = &mut packages.values;
        let found = node.search_with(alloc, tree, readings, &importer, target.as_str());
        return raised(found);
    }
    join_bare(alloc, tree, packages, project, asking, target.as_str())
}

// The rows behind a bare target.
fn join_bare<R: Asker>(
    alloc: Global,
    tree: &mut R,
    packages: &mut PackageReadings,
    project: &Project<'_>,
    asking: &Asking<'_>,
    target: &str,
) -> Result<Resolution, ResolveError<JoinRefusal>>
    ensures { Resolves (R.asking tree.old) (R.asking tree.new) result
        (order (bare_rows project.now asking.now.manifest.now asking.now.owner.now
        asking.now.path.now target.now)) }
{
    let (name, subpath) = identifier_of(alloc, target)?;
    let locator = bound_of(alloc, asking, target, &name)?;
    let edge = Edge {
        manifest: asking.manifest,
        owner: asking.owner,
        name: name.as_str(),
        bound: &locator,
    };
    let location = checked_row(alloc, tree, packages, project, &edge)?;
    let folder = folder_of(alloc, asking.manifest, &locator, location)?;
    let sought = Sought {
        folder,
        subpath: text_in(&subpath),
    };
    join_in_folder(alloc, tree, packages, project, locator, &sought)
}

// A text that may be there, borrowed.
fn text_in(text: &Option<Text>) -> Option<&str>
    ensures { option_copied result ≡ text.now }
{
    match text {
        Some(text) => Some(text.as_str()),
        None => None,
    }
}

// The rows behind the location of the package.
fn join_in_folder<R: Asker>(
    alloc: Global,
    tree: &mut R,
    packages: &mut PackageReadings,
    project: &Project<'_>,
    locator: PackageLocator,
    sought: &Sought<'_, '_>,
) -> Result<Resolution, ResolveError<JoinRefusal>>
    ensures { Resolves (R.asking tree.old) (R.asking tree.new) result
        (order (folder_rows project.now locator sought.now.folder.now (option_copied sought.now.subpath))) }
{
    let Sought { folder, subpath } = *sought;
    let exported = exported_file(alloc, tree, packages, project, folder, subpath)?;
    let readings = &mut packages.values;
    let placed = found_at(alloc, tree, readings, project, sought, exported)?;
    let (file, rewritten) = match placed {
        Placed::File { path, rewritten } => (path, rewritten),
        Placed::Ignored(name) => return Ok(Resolution::custom(name)),
    };
    let file = contained(alloc, folder, file)?;
    let location = folder.to_text(alloc)?;
    let PackageLocator { name, reference } = locator;
    let via = Via {
        name,
        reference,
        location,
    };
    let relative = rewritten && file.is_below(project.cwd());
    Ok(
        project
            .node()
            .answer(alloc, tree, Some(via), file, relative)?,
    )
}
