// A session whose files are scanned once, until they are put or taken out.
ghost use Rattle.std.specs.Prelude.{◌≡◌, ◌≢◌, [], None, Some, is_some, map, unwrap_or, count_by};
ghost use Rattle.std.specs.Prelude.{IfOk, IfErr, IfNone, IfSome, OnOk, OnErr, OnSome};
ghost use Rattle.std.specs.HashMap.{get_by_text};
ghost use Rattle.std.specs.Option.{option_copied};
ghost use Rattle.tree_core.specs.Tree.{bytes_at, is_file};
ghost use Rattle.tree_core.specs.Memory.{refusal};
ghost use Rattle.tree_core.specs.declared.memory.PutError.TheVariants.{NoMemory};
ghost use Rattle.swc_loader.specs.declared.resolution.FileName.TheVariants.{Real};
ghost use Rattle.session_core.specs.Entries.{is_touched};
ghost use Rattle.session_core.specs.Session.{IsSession, after_ask, after_put, after_remove};
ghost use Rattle.session_core.specs.SessionView.{keys_in, state_of};
ghost use Rattle.import_graph.specs.Graph.{edges_on, imported};
ghost use Rattle.import_graph.specs.GraphState.{IsSameBut, after_asks, edge_by};
ghost use Rattle.import_graph.specs.Scans.{AreScans};

use crate::graph::Edge;
use crate::imports::Imports;
use crate::scan::Scan;
use resolve_stack::FileName;
use session_core::{Keys, Session};
use std::alloc::{AllocError, Global};
use std::collections::HashMap;
use std::marker::Model;
use sugar_path::{List, Text};
use tree_core::PutError;

// A session, seen as its state, and what its files import.
#[derive(Drop)]
pub(crate) struct Sources<'l, S: Scan + Drop> {
    alloc: Global,
    session: Session<'l>,
    scanner: S,
    // what was scanned, by path, of files that are as they were then
    scans: HashMap<String, Imports>,
    // the numbers that the outcomes of a file's imports had when they were asked last: hints, of which nothing is known
    hints: HashMap<String, Vec<u64>>,
}

impl<'l, S: Scan + Drop> Model for Sources<'l, S> {
    ghost use Rattle.session_core.specs.declared.session.Session.{Session as Held};
    ghost use Rattle.import_graph.specs.GraphView.{session_code};

    ghost Value = { Held };

    ghost coded = { session_code };

    ghost use Rattle.session_core.specs.SessionView.{state_of};
    ghost use Rattle.std.specs.HashMap.{get_by_text};
    ghost use Rattle.import_graph.specs.Scans.{AreScans};

    ghost view = { λ s. s.session };

    ghost invariant = { λ s. AreScans S.imports (state_of s.session).tree.files (get_by_text s.scans) };
}

impl<'l, S: Scan + Drop> Sources<'l, S> {
    // No file is scanned yet.
    pub(crate) fn over(alloc: Global, session: Session<'l>, scanner: S) -> Sources<'l, S>
        ensures { state_of result ≡ state_of session.entry }
    {
        Sources {
            alloc,
            session,
            scanner,
            scans: HashMap::new(alloc),
            hints: HashMap::new(alloc),
        }
    }

    // Puts a file, as the session does. It is scanned anew when it is met next.
    pub(crate) fn put(
        &mut self,
        path: &str,
        bytes: &[u8],
        canonical: &str,
    ) -> Result<usize, PutError>
        ensures ok { OnOk result (state_of self.new ≡ after_put (state_of self.old) path.now
            (record { content = bytes.now; canonical = canonical.now })) }
        ensures count { IfOk result (λ n. n ≡ count_by (is_touched path.now) (state_of self.old).kept) }
        ensures fits { OnOk result
            (refusal (state_of self.old).tree.files path.now canonical.now ≡ None) }
        ensures refused { IfErr result (λ e. e ≢ NoMemory →
            refusal (state_of self.old).tree.files path.now canonical.now ≡ Some e) }
        ensures err { OnErr result (state_of self.new ≡ state_of self.old) }
    {
        let dropped = self.session.put(path, bytes, canonical)?;
        self.scans.remove(path);
        Ok(dropped)
    }

    // Takes a file out, as the session does.
    pub(crate) fn remove(&mut self, path: &str) -> Option<usize>
        ensures was { is_some result ≡ is_file (state_of self.old).tree.files path.now }
        ensures gone { OnSome result (state_of self.new ≡ after_remove (state_of self.old) path.now) }
        ensures count { IfSome result (λ n.
            n ≡ count_by (is_touched path.now) (state_of self.old).kept) }
        ensures absent { IfNone result (state_of self.new ≡ state_of self.old) }
    {
        let dropped = self.session.remove(path)?;
        self.scans.remove(path);
        self.hints.remove(path);
        Some(dropped)
    }

    // Whether a path is that of a file.
    pub(crate) fn is_file(&self, path: &str) -> bool
        ensures { result ≡ is_file (state_of self.now).tree.files path.now }
    {
        self.session.file(path).is_some()
    }

    // The bytes of the file at a path, where there is one.
    pub(crate) fn file(&self, path: &str) -> Option<&[u8]>
        ensures { option_copied result ≡ bytes_at (state_of self.now).tree.files path.now }
    {
        self.session.file(path)
    }

    // The importers and specifiers of the outcomes that are kept, the most recently used first.
    pub(crate) fn keys(&self) -> Keys<'_>
        ensures keys { keys_in result ≡ map (λ e. (e.importer, e.specifier)) (state_of self.now).kept }
        ensures right { IsSession (state_of self.now) }
    {
        self.session.keys()
    }

    // How many questions were put to the tree.
    pub(crate) fn questions(&self) -> u64
        ensures { result ≡ (state_of self.now).tree.questions }
    {
        self.session.questions()
    }

    // The edges of a file: each of its imports is asked, in order. A file that was scanned is scanned no more.
    pub(crate) fn edges_of(&mut self, file: &Text) -> Result<List<Edge>, AllocError>
        ensures asked { OnOk result (state_of self.new ≡ after_asks (state_of self.old)
            (map (λ text. (Real file.now, text)) (imported S.imports (state_of self.old).tree.files file.now))) }
        ensures edges { IfOk result (λ edges.
            edges ≡ edges_on S.imports (state_of self.old).tree.files (state_of self.old).project file.now) }
        ensures same { IsSameBut (state_of self.old) (state_of self.new) }
    {
        let importer = FileName::Real(file.try_clone(self.alloc)?);
        keep_scan(
            self.alloc,
            &self.session,
            &self.scanner,
            &mut self.scans,
            file,
        )?;
        let texts = texts_of(&self.scans, file);
        let hints = hints_of(&self.hints, file);
        let asked = edges_by(self.alloc, &mut self.session, &importer, texts, hints)?;
        keep_hints(self.alloc, &mut self.hints, file, asked.numbers)?;
        Ok(List::from(asked.edges))
    }
}

// The numbers that the outcomes of a file's imports had when they were asked last.
fn hints_of<'s>(hints: &'s HashMap<String, Vec<u64>>, file: &Text) -> &'s [u64] {
    match hints.get(file.as_str()) {
        Some(numbers) => numbers.as_slice(),
        None => &[],
    }
}

// Keeps the numbers of a file's imports.
fn keep_hints(
    alloc: Global,
    hints: &mut HashMap<String, Vec<u64>>,
    file: &Text,
    numbers: Vec<u64>,
) -> Result<(), AllocError> {
    if let Some(kept) = hints.get_mut(file.as_str()) {
        *kept = numbers;
        return Ok(());
    }
    hints.insert(String::from_str(alloc, file.as_str())?, numbers)?;
    Ok(())
}

// Keeps what a file imports. A file that was scanned is scanned no more.
fn keep_scan<S: Scan>(
    alloc: Global,
    session: &Session<'_>,
    scanner: &S,
    scans: &mut HashMap<String, Imports>,
    file: &Text,
) -> Result<(), AllocError>
    requires { AreScans S.imports (state_of session.now).tree.files (get_by_text scans.old) }
    ensures kept { AreScans S.imports (state_of session.now).tree.files (get_by_text scans.new) }
    ensures there { OnOk result (get_by_text scans.new file.now
        ≡ Some (imported S.imports (state_of session.now).tree.files file.now)) }
{
    if scans.contains_key(file.as_str()) {
        return Ok(());
    }
    let texts = imported(alloc, session, scanner, file)?;
    scans.insert(String::from_str(alloc, file.as_str())?, texts)?;
    Ok(())
}

// What a file imports, by a scan of its bytes.
fn imported<S: Scan>(
    alloc: Global,
    session: &Session<'_>,
    scanner: &S,
    file: &Text,
) -> Result<Imports, AllocError>
    ensures { IfOk result (λ texts.
        texts ≡ imported S.imports (state_of session.now).tree.files file.now) }
{
    match session.file(file.as_str()) {
        Some(bytes) => Imports::of(alloc, scanner.scan(alloc, bytes)?),
        None => Imports::of(alloc, List::new(alloc)),
    }
}

// What is kept of a file.
fn texts_of<'s>(scans: &'s HashMap<String, Imports>, file: &Text) -> &'s [Text]
    ensures { result.now ≡ unwrap_or (get_by_text scans.now file.now) [] }
{
    match scans.get(file.as_str()) {
        Some(texts) => texts.as_slice(),
        None => &[],
    }
}

// Edges that were asked, and the numbers of their outcomes.
#[derive(Drop)]
struct Asked {
    edges: Vec<Edge>,
    numbers: Vec<u64>,
}

// The edges of an importer, by its imports. The numbers that their outcomes had before are hints.
fn edges_by(
    alloc: Global,
    session: &mut Session<'_>,
    importer: &FileName,
    texts: &[Text],
    hints: &[u64],
) -> Result<Asked, AllocError>
    ensures asked { OnOk result (state_of session.new ≡ after_asks (state_of session.old)
        (map (λ text. (importer.now, text)) texts.now)) }
    ensures edges { IfOk result (λ asked.
        asked.edges.items ≡ map (edge_by (state_of session.old) importer.now) texts.now) }
    ensures same { IsSameBut (state_of session.old) (state_of session.new) }
{
    let mut edges = Vec::with_capacity(alloc, texts.len())?;
    let mut numbers = Vec::with_capacity(alloc, texts.len())?;
    for text in texts {
        let hint = hints.get(edges.len()).copied();
        edges.push(edge_by(alloc, session, importer, text, hint)?)?;
        numbers.push(session.latest_number().unwrap_or(0))?;
    }
    Ok(Asked { edges, numbers })
}

// An edge of an importer.
fn edge_by(
    alloc: Global,
    session: &mut Session<'_>,
    importer: &FileName,
    text: &Text,
    hint: Option<u64>,
) -> Result<Edge, AllocError>
    ensures asked { OnOk result
        (state_of session.new ≡ after_ask (state_of session.old) importer.now text.now) }
    ensures edge { IfOk result (λ edge. edge ≡ edge_by (state_of session.old) importer.now text.now) }
    ensures err { OnErr result (IsSameBut (state_of session.old) (state_of session.new)) }
{
    let specifier = text.try_clone(alloc)?;
    let outcome = session.ask_at(hint, importer, text.as_str())?;
    let verdict = outcome.verdict.try_clone(alloc)?;
    Ok(Edge { specifier, verdict })
}
