// Values at locations, found by the nearest location above a path. They are kept in a compressed trie.
ghost use Rattle.std.specs.Prelude.{◌≡◌, [], IsTrue, IfOk, IfErr, OnOk, OnErr};
ghost use Rattle.std.specs.Option.{option_copied};
ghost use Rattle.sugar_path.specs.Path.{IsPath, is_absolute, text_of};
ghost use Rattle.pnp_core.specs.NormalizePath.{location_path};
ghost use Rattle.pnp_core.specs.Trie.{Puts, nearest_value, CountsNodes};

use crate::initialize::has_no_backslash;
use crate::normalize::location;
use crate::trie_nodes::{Node, nearest, node_at};
use std::alloc::{AllocError, Global};
use std::marker::Model;
use sugar_path::CleanPath;

/// Values at locations. A location is an absolute path, and two texts that name one path are one location.
#[derive(Drop)]
pub struct Trie<T> {
    alloc: Global,
    nodes: Vec<Node<T>>,
}

impl<T> Model for Trie<T> {
    ghost use Rattle.pnp_core.specs.Trie.{Locations};

    ghost Value = { Locations T };

    ghost use Rattle.pnp_core.specs.Nodes.{stored, AreTrie, AreNeeded};

    ghost view = { λ t. stored t.nodes.items };

    ghost invariant = { λ t. AreTrie t.nodes.items × AreNeeded t.nodes.items 0 };
}

impl<T: Drop> Trie<T> {
    /// A trie without locations.
    pub fn new(alloc: Global) -> Trie<T>
        ensures { result ≡ [] }
    {
        Trie {
            alloc,
            nodes: Vec::new(alloc),
        }
    }

    /// Puts a value at a location, in place of the one that was there. Where no memory is found, the value comes back.
    pub fn insert(&mut self, key: &str, value: T) -> Result<(), (T, AllocError)>
        requires { IsTrue (is_absolute key.now) }
        ensures ok { OnOk result (Puts self.old self.new (location_path key.now) value) }
        ensures err { OnErr result (self.new ≡ self.old) }
        ensures back { IfErr result (λ e. e.0 ≡ value) }
    {
        match location(self.alloc, key) {
            Ok(location) => self.insert_at(location, value),
            Err(e) => Err((value, e)),
        }
    }

    // Puts a value at a path.
    pub(crate) fn insert_at(&mut self, location: CleanPath, value: T) -> Result<(), (T, AllocError)>
        requires { IsPath location }
        ensures ok { OnOk result (Puts self.old self.new location value) }
        ensures err { OnErr result (self.new ≡ self.old) }
        ensures back { IfErr result (λ e. e.0 ≡ value) }
    {
        match node_at(self.alloc, &mut self.nodes, location) {
            Ok(node) => {
                self.nodes[node.0].value = Some(value);
                Ok(())
            }
            Err(e) => Err((value, e)),
        }
    }

    /// The value of the nearest location that a path is or lies below.
    pub fn get_ancestor_value(&self, alloc: Global, key: &str) -> Result<Option<&T>, AllocError>
        requires { IsTrue (is_absolute key.now) }
        ensures { IfOk result (λ found.
            option_copied found ≡ nearest_value self.now (location_path key.now)) }
    {
        let path = location(alloc, key)?;
        Ok(self.value_above(&path))
    }

    // The value of the nearest location that a clean path's text names or lies below. Only where `\` stands in it is it
    // read anew.
    pub(crate) fn nearest_value(
        &self,
        alloc: Global,
        path: &CleanPath,
    ) -> Result<Option<&T>, AllocError>
        ensures { IfOk result (λ found.
            option_copied found ≡ nearest_value self.now (location_path (text_of path.now))) }
    {
        if has_no_backslash(path.as_str()) {
            return Ok(self.value_above(path));
        }
        let named = location(alloc, path.as_str())?;
        Ok(self.value_above(&named))
    }

    // The value of the nearest location that a path is or lies below.
    fn value_above(&self, path: &CleanPath) -> Option<&T>
        requires { IsPath path.now }
        ensures { option_copied result ≡ nearest_value self.now path.now }
    {
        let node = nearest(&self.nodes, path)?;
        self.nodes[node.0].value.as_ref()
    }

    /// How many nodes there are: one for `/`, one for each location, and one for the longest path that each two
    /// locations share, each path once.
    pub fn nodes(&self) -> usize
        ensures { CountsNodes self.now result }
    {
        self.nodes.len().max(1)
    }
}
