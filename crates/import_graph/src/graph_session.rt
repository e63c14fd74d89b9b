// Graph sessions: the import graph from some entries over a tree that is edited.
ghost use Rattle.std.specs.Prelude.{◌≡◌, ◌≢◌, ◌<◌, [], None, Some, is_some, map, not, position, bytes_eq, count_by};
ghost use Rattle.std.specs.Prelude.{IfOk, IfErr, IfNone, IfSome, IsSome, MatchResult, OnOk, OnErr, OnSome};
ghost use Rattle.std.specs.Borrow.{sem};
ghost use Rattle.std.specs.FinMap as finite;
ghost use Rattle.std.specs.List.{IsDistinct};
ghost use Rattle.std.specs.Option.{option_copied};
ghost use Rattle.tree_core.specs.Tree.{bytes_at, is_file, is_file_path};
ghost use Rattle.tree_core.specs.Memory.{refusal};
ghost use Rattle.tree_core.specs.declared.memory.PutError.TheVariants.{NoMemory};
ghost use Rattle.session_core.specs.Entries.{is_touched};
ghost use Rattle.session_core.specs.Session.{IsSession, after_put, after_remove};
ghost use Rattle.session_core.specs.SessionView.{keys_in, state_of};
ghost use Rattle.import_graph.specs.declared.graph_error.GraphError.TheVariants as error;
ghost use Rattle.import_graph.specs.GraphState.{IsAsked, IsSameBut, LeavesAsked, LeavesSame};
ghost use Rattle.import_graph.specs.GraphState.{entry_refusal, graph_of, with_session};
ghost use Rattle.import_graph.specs.GraphView.{graph_state};
ghost use Rattle.import_graph.specs.Scans.{IsLast};

use crate::graph::Graph;
use crate::graph_error::GraphError;
use crate::scan::Scan;
use crate::sources::Sources;
use crate::walk::walk;
use resolve_stack::Project;
use session_core::{Keys, Session};
use std::alloc::{AllocError, Global};
use std::fmt;
use std::marker::Model;
use sugar_path::{List, Text, is_clean};
use tree_core::{MemoryTree, PutError};

/// A project with a tree of its own, and the import graph from some entries: at any time it is the one on the tree as
/// it is now.
#[derive(Drop)]
pub struct GraphSession<'l, S: Scan + Drop> {
    alloc: Global,
    entries: List<Text>,
    sources: Sources<'l, S>,
    // the latest graph, until the next edit
    latest: Option<Graph>,
}

impl<'l, S: Scan + Drop> Model for GraphSession<'l, S> {
    ghost use Rattle.import_graph.specs.GraphView.{Held, held_code};

    ghost Value = { Held };

    ghost coded = { held_code };

    ghost use Rattle.session_core.specs.SessionView.{state_of};
    ghost use Rattle.import_graph.specs.Scans.{IsLast};

    ghost view = { λ s. (s.sources, s.entries) };

    ghost invariant = { λ s. IsLast S.imports (state_of s.sources) s.entries s.latest };
}

impl<'l, S: Scan + Drop> GraphSession<'l, S> {
    ghost use Rattle.import_graph.specs.GraphLoans.{AfterLoan};

    /// The graph from entries on a tree without files. At most so many outcomes of requests are kept.
    pub fn new(
        alloc: Global,
        project: Project<'l>,
        capacity: usize,
        scanner: S,
        entries: List<Text>,
    ) -> Result<GraphSession<'l, S>, GraphError>
        requires { 0 < capacity }
        ensures made { IfOk result (λ s. graph_state s ≡ record {
          session = record {
            project = project.entry;
            tree = record { files = finite.empty; questions = 0 };
            capacity = capacity;
            kept = [];
          };
          entries = entries;
        }) }
        ensures clean { OnOk result (entry_refusal entries ≡ None) }
        ensures refused { IfErr result (λ e. e ≢ error.NoMemory → entry_refusal entries ≡ Some e) }
    {
        if let Some(at) = first_unclean(entries.as_slice()) {
            return Err(GraphError::UncleanEntry { at });
        }
        let session = Session::new(alloc, project, capacity)?;
        Ok(GraphSession {
            alloc,
            entries,
            sources: Sources::over(alloc, session, scanner),
            latest: None,
        })
    }

    /// The graph from entries on the tree of a session.
    pub fn over(
        alloc: Global,
        session: Session<'l>,
        scanner: S,
        entries: List<Text>,
    ) -> Result<GraphSession<'l, S>, GraphError>
        ensures made { IfOk result (λ s.
            graph_state s ≡ record { session = state_of session.entry; entries = entries }) }
        ensures clean { OnOk result (entry_refusal entries ≡ None) }
        ensures refused { IfErr result (λ e. entry_refusal entries ≡ Some e) }
    {
        if let Some(at) = first_unclean(entries.as_slice()) {
            return Err(GraphError::UncleanEntry { at });
        }
        Ok(GraphSession {
            alloc,
            entries,
            sources: Sources::over(alloc, session, scanner),
            latest: None,
        })
    }

    /// Puts a file in the tree, in place of an earlier one at the path. It answers how many outcomes are dropped by
    /// that.
    pub fn put(&mut self, path: &str, bytes: &[u8], canonical: &str) -> Result<usize, PutError>
        ensures ok { OnOk result (graph_state self.new ≡ with_session (graph_state self.old)
            (after_put (graph_state self.old).session path.now
            (record { content = bytes.now; canonical = canonical.now }))) }
        ensures count { IfOk result (λ n.
            n ≡ count_by (is_touched path.now) (graph_state self.old).session.kept) }
        ensures fits { OnOk result
            (refusal (graph_state self.old).session.tree.files path.now canonical.now ≡ None) }
        ensures refused { IfErr result (λ e. e ≢ NoMemory →
            refusal (graph_state self.old).session.tree.files path.now canonical.now ≡ Some e) }
        ensures err { OnErr result (graph_state self.new ≡ graph_state self.old) }
    {
        let dropped = self.sources.put(path, bytes, canonical)?;
        self.latest = None;
        Ok(dropped)
    }

    /// Takes a file out of the tree. It answers how many outcomes are dropped by that, and None where no file has the
    /// path. It takes no memory.
    pub fn remove(&mut self, path: &str) -> Option<usize>
        ensures was { is_some result ≡ is_file (graph_state self.old).session.tree.files path.now }
        ensures gone { OnSome result
            (graph_state self.new ≡ with_session (graph_state self.old)
            (after_remove (graph_state self.old).session path.now)) }
        ensures count { IfSome result (λ n.
            n ≡ count_by (is_touched path.now) (graph_state self.old).session.kept) }
        ensures absent { IfNone result (graph_state self.new ≡ graph_state self.old) }
    {
        let dropped = self.sources.remove(path)?;
        self.latest = None;
        Some(dropped)
    }

    /// The graph from the entries on the tree as it is now.
    pub fn graph(&mut self) -> Result<&Graph, AllocError>
        // What the session is like then: outcomes are kept, and nothing but these and the count of questions changed.
        ensures* ends { sem 𝓛 (AfterLoan S.row S.Scan self.entry (λ then. MatchResult result
            (λ _. LeavesAsked S.imports (graph_state self.old) (graph_state then))
            (λ _. LeavesSame (graph_state self.old) (graph_state then)))) }
        ensures graph { IfOk result (λ g. g.now ≡ graph_of S.imports (graph_state self.old)) }
        // No file stands in it twice.
        ensures once { IfOk result (λ g. IsDistinct bytes_eq (map (λ node. node.file) g.now.nodes)) }
    {
        latest_graph(
            self.alloc,
            &mut self.sources,
            self.entries.as_slice(),
            &mut self.latest,
        )?;
        Ok(self.latest.as_ref().unwrap())
    }

    /// How many questions were put to the tree.
    pub fn questions(&self) -> u64
        ensures { result ≡ (graph_state self.now).session.tree.questions }
    {
        self.sources.questions()
    }

    /// The importers and specifiers of the outcomes that are kept, the most recently used first.
    pub fn keys(&self) -> Keys<'_>
        ensures keys { keys_in result
            ≡ map (λ e. (e.importer, e.specifier)) (graph_state self.now).session.kept }
        ensures right { IsSession (graph_state self.now).session }
    {
        self.sources.keys()
    }

    /// The bytes of the file at a path of the tree as it is now, where there is one. That is no question.
    pub fn file(&self, path: &str) -> Option<&[u8]>
        ensures { option_copied result ≡ bytes_at (graph_state self.now).session.tree.files path.now }
    {
        self.sources.file(path)
    }

    /// The entries, as they were given.
    pub fn entries(&self) -> &[Text]
        ensures { result.now ≡ (graph_state self.now).entries }
    {
        self.entries.as_slice()
    }
}

impl<'l, S: Scan + Drop> fmt::Debug for GraphSession<'l, S> {
    fn fmt<W: fmt::Write>(&self, f: &mut fmt::Formatter<W>) -> fmt::Result {
        f.debug_struct("GraphSession")
            .field("entries", &self.entries)
            .field("latest", &self.latest)
            .finish_non_exhaustive()
    }
}

// Makes the graph, where there is none since the latest edit.
fn latest_graph<S: Scan + Drop>(
    alloc: Global,
    sources: &mut Sources<'_, S>,
    entries: &[Text],
    latest: &mut Option<Graph>,
) -> Result<(), AllocError>
    requires { IsLast S.imports (state_of sources.old) entries.now latest.old }
    ensures last { IsLast S.imports (state_of sources.new) entries.now latest.new }
    ensures some { OnOk result (IsSome latest.new) }
    ensures asked { OnOk result (IfSome latest.new (λ g. IsAsked g (state_of sources.old) (state_of sources.new))) }
    ensures same { IsSameBut (state_of sources.old) (state_of sources.new) }
{
    if latest.is_none() {
        // What is kept is right, so it stays as it is when the same is asked again.
        let _keys = sources.keys();
        *latest = Some(walk(alloc, sources, entries)?);
    }
    Ok(())
}

/// The place of the first text that isn't a clean absolute path other than `/`, and so is no entry.
pub fn first_unclean(entries: &[Text]) -> Option<usize>
    ensures { result ≡ position (λ entry. not (is_file_path entry)) entries.now }
{
    entries
        .iter()
        .position(|entry| !is_file_path(entry.as_str()))
}

// Whether a text is a clean absolute path other than `/`.
fn is_file_path(text: &str) -> bool
    ensures { result ≡ is_file_path text.now }
{
    text != "/" && is_clean(text)
}
