// The nodes of a trie of locations.
ghost use Rattle.std.specs.Prelude.{
  ◌≡◌,
  ◌<◌,
  ◌==◌,
  ◌∷◌,
  false,
  length,
  IsTrue,
  IfOk,
  IfSome,
  OnOk,
  OnErr,
  MatchOption,
  IsSome,
  suc,
  None,
  Some,
  string_bytes,
  vec_capacity,
};
ghost use Rattle.std.specs.List.{before_first};
ghost use Rattle.std.specs.Option.{option_or};
ghost use Rattle.sugar_path.specs.Path.{IsPath, below, steps};
ghost use Rattle.pnp_core.specs.Trie.{nearest_value, IsShared};
ghost use Rattle.pnp_core.specs.Nodes.{
  location_at,
  child_at,
  value_in,
  stored,
  value_of,
  AreTrie,
  AreNeeded,
  AreSame,
  IsNext,
  IsEnd,
  IsLed,
  Attaches,
  IsParting,
  IsNodeOf,
  IsLeaf,
  PutsBetween,
  PutsBeside,
  place_of,
};

use memchr::memchr;
use std::alloc::{AllocError, Global};
use std::collections::BTreeMap;
use sugar_path::CleanPath;

/// A node, by its place in the vector of nodes. The first node is that of `/`.
#[derive(Clone, Copy)]
pub(crate) struct NodeId(pub(crate) usize);

/// A location that holds a value, or at which the ways to locations part. Its fragment is the names of its location
/// below its parent's.
#[derive(Drop)]
pub(crate) struct Node<T> {
    pub(crate) location: CleanPath,
    // the nodes right below, by the first names of their fragments, in byte order
    pub(crate) children: BTreeMap<String, NodeId>,
    pub(crate) value: Option<T>,
}

/// The nearest node with a value whose location a path is or lies below.
pub(crate) fn nearest<T>(nodes: &[Node<T>], path: &CleanPath) -> Option<NodeId>
    requires trie { AreTrie nodes.now }
    requires path { IsPath path.now }
    ensures place { IfSome result (λ node. node.0 < length nodes.now) }
    ensures value { nearest_value (stored nodes.now) path.now ≡ value_of nodes.now result }
{
    if nodes.is_empty() {
        return None;
    }
    let mut at = NodeId(0);
    let mut nearest = None;
    loop {
        nearest = own_or(nodes, at, nearest);
        match next_child(nodes, at, path) {
            Some(child) if is_above(nodes, child, path) => at = child,
            _ => return nearest,
        }
    }
}

// The node itself where it has a value, else the nearest one above it that has.
fn own_or<T>(nodes: &[Node<T>], at: NodeId, nearest: Option<NodeId>) -> Option<NodeId>
    requires place { at.0 < length nodes.now }
    requires nearest { IfSome nearest (λ node. node.0 < length nodes.now) }
    ensures place { IfSome result (λ node. node.0 < length nodes.now) }
    ensures value { value_of nodes.now result ≡ option_or (value_in nodes.now at.0) (value_of nodes.now nearest) }
{
    if nodes[at.0].value.is_some() {
        Some(at)
    } else {
        nearest
    }
}

// The child of the name by which the way to a path leaves a node whose location the path is or lies below.
fn next_child<T>(nodes: &[Node<T>], at: NodeId, path: &CleanPath) -> Option<NodeId>
    requires place { at.0 < length nodes.now }
    requires above { IsTrue (below path.now (location_at nodes.now at.0)) }
    ensures { IsNext nodes.now at.0 path.now (place_of result) }
{
    let name = first_name_below(path, &nodes[at.0].location)?;
    child_of(nodes, at, name)
}

// Whether a path is the location of a node or lies below it.
#[tactic(auto, using(crate::proofs::NodeLists::node_reads))]
fn is_above<T>(nodes: &[Node<T>], node: NodeId, path: &CleanPath) -> bool
    requires { node.0 < length nodes.now }
    ensures { result ≡ below path.now (location_at nodes.now node.0) }
{
    path.is_below(&nodes[node.0].location)
}

// The name by which the way to a path leaves a folder that the path is or lies below.
fn first_name_below<'a>(path: &'a CleanPath, folder: &CleanPath) -> Option<&'a str>
    requires { IsTrue (below path.now folder.now) }
    ensures { MatchOption result
        (path.now ≡ folder.now)
        (λ name. IsTrue (below path.now (name.now ∷ folder.now))) }
{
    if path.is_root() {
        return None;
    }
    let above = steps_of(folder);
    let names = path.as_str().strip_prefix(above)?.strip_prefix('/')?;
    Some(first_of(names))
}

// The first of some names.
fn first_of(names: &str) -> &str
    ensures { result.now ≡ before_first (λ c. c == 47) names.now }
{
    match memchr(b'/', names.as_bytes()) {
        Some(end) => &names[..end],
        None => names,
    }
}

// The names of a path, each behind a `/`.
fn steps_of(path: &CleanPath) -> &str
    ensures { result.now ≡ steps path.now }
{
    if path.is_root() { "" } else { path.as_str() }
}

/// The node of a location; where there is none, it is made. All memory is taken before a node changes.
pub(crate) fn node_at<T: Drop>(
    alloc: Global,
    nodes: &mut Vec<Node<T>>,
    location: CleanPath,
) -> Result<NodeId, AllocError>
    requires path { IsPath location }
    requires trie { AreTrie nodes.old.items }
    requires needed { AreNeeded nodes.old.items 0 }
    ensures trie { AreTrie nodes.new.items }
    ensures stored { stored nodes.new.items ≡ stored nodes.old.items }
    ensures node { IfOk result (λ node. IsNodeOf nodes.new.items location node.0) }
    ensures needed { IfOk result (λ node. AreNeeded nodes.new.items node.0) }
    ensures err { OnErr result (AreNeeded nodes.new.items 0) }
{
    make_root(alloc, nodes)?;
    let WayEnd { node, beside } = way_end(nodes, &location);
    let Some(name) = first_name_below(&location, &nodes[node.0].location) else {
        return Ok(node);
    };
    let name = String::from_str(alloc, name)?;
    match beside {
        None => attach(alloc, nodes, node, name, location),
        Some(child) => part(alloc, nodes, node, name, child, location),
    }
}

// The node of `/`, where there is no node yet.
fn make_root<T: Drop>(alloc: Global, nodes: &mut Vec<Node<T>>) -> Result<(), AllocError>
    requires trie { AreTrie nodes.old.items }
    requires needed { AreNeeded nodes.old.items 0 }
    ensures trie { AreTrie nodes.new.items }
    ensures stored { stored nodes.new.items ≡ stored nodes.old.items }
    ensures needed { AreNeeded nodes.new.items 0 }
    ensures some { OnOk result (0 < length nodes.new.items) }
{
    if nodes.is_empty() {
        nodes.push(leaf(alloc, CleanPath::root(alloc)))?;
    }
    Ok(())
}

// A node at which the way to a path ends.
struct WayEnd {
    // the deepest node whose location the path is or lies below
    node: NodeId,
    // its child of the name by which the path goes on, so that it needn't be searched again
    beside: Option<NodeId>,
}

// Where the way to a path ends.
fn way_end<T>(nodes: &[Node<T>], path: &CleanPath) -> WayEnd
    requires trie { AreTrie nodes.now }
    requires some { 0 < length nodes.now }
    ensures place { result.node.0 < length nodes.now }
    ensures above { IsTrue (below path.now (location_at nodes.now result.node.0)) }
    ensures end { IsEnd nodes.now result.node.0 path.now (place_of result.beside) }
{
    let mut node = NodeId(0);
    loop {
        match next_child(nodes, node, path) {
            Some(child) if is_above(nodes, child, path) => node = child,
            beside => return WayEnd { node, beside },
        }
    }
}

// A node without value and children.
fn leaf<T>(alloc: Global, location: CleanPath) -> Node<T>
    ensures { IsLeaf result location }
{
    Node {
        location,
        children: BTreeMap::new(alloc),
        value: None,
    }
}

// The child of a name.
fn child_of<T>(nodes: &[Node<T>], at: NodeId, name: &str) -> Option<NodeId>
    requires { at.0 < length nodes.now }
    ensures { place_of result ≡ child_at nodes.now at.0 name.now }
{
    nodes[at.0].children.get(name).copied()
}

// Makes a node right below another one.
fn attach<T: Drop>(
    alloc: Global,
    nodes: &mut Vec<Node<T>>,
    at: NodeId,
    name: String,
    location: CleanPath,
) -> Result<NodeId, AllocError>
    requires { at.0 < length nodes.old.items }
    ensures made { IfOk result (λ node. node.0 ≡ length nodes.old.items) }
    ensures ok { OnOk result (Attaches nodes.old.items nodes.new.items at.0 (string_bytes name) location) }
    ensures err { OnErr result (AreSame nodes.old.items nodes.new.items) }
{
    let made = NodeId(nodes.len());
    nodes.reserve(1)?;
    lead(nodes, at, name, made)?;
    nodes.push_reserved(leaf(alloc, location));
    Ok(made)
}

// Lets a name lead from a node to a place.
fn lead<T>(
    nodes: &mut Vec<Node<T>>,
    at: NodeId,
    name: String,
    place: NodeId,
) -> Result<(), AllocError>
    requires { at.0 < length nodes.old.items }
    ensures ok { OnOk result (IsLed nodes.old.items nodes.new.items at.0 (string_bytes name) place.0) }
    ensures err { OnErr result (AreSame nodes.old.items nodes.new.items) }
    ensures new_name { OnErr result (child_at nodes.old.items at.0 (string_bytes name) ≡ None) }
    ensures room { vec_capacity nodes.new ≡ vec_capacity nodes.old }
{
    nodes[at.0].children.insert(name, place)?;
    Ok(())
}

// Makes a node where the ways to a node's child and to a location part, and a node of that location.
fn part<T: Drop>(
    alloc: Global,
    nodes: &mut Vec<Node<T>>,
    at: NodeId,
    name: String,
    child: NodeId,
    location: CleanPath,
) -> Result<NodeId, AllocError>
    requires path { IsPath location }
    requires trie { AreTrie nodes.old.items }
    requires needed { AreNeeded nodes.old.items 0 }
    requires way { child_at nodes.old.items at.0 (string_bytes name) ≡ Some child.0 }
    requires below { IsTrue (below location (string_bytes name ∷ location_at nodes.old.items at.0)) }
    requires apart { below location (location_at nodes.old.items child.0) ≡ false }
    ensures trie { AreTrie nodes.new.items }
    ensures stored { stored nodes.new.items ≡ stored nodes.old.items }
    ensures node { IfOk result (λ node. IsNodeOf nodes.new.items location node.0) }
    ensures needed { IfOk result (λ node. AreNeeded nodes.new.items node.0) }
    ensures err { OnErr result (AreNeeded nodes.new.items 0) }
{
    let parting = parting_of(alloc, &nodes[child.0].location, child, &location)?;
    let Some(beside) = first_name_below(&location, &parting.location) else {
        return put_between(nodes, at, name, parting);
    };
    let beside = String::from_str(alloc, beside)?;
    put_beside(alloc, nodes, at, name, parting, beside, location)
}

// The node where the ways to a node and to a path part.
fn parting_of<T>(
    alloc: Global,
    lower: &CleanPath,
    child: NodeId,
    path: &CleanPath,
) -> Result<Node<T>, AllocError>
    requires { below path.now lower.now ≡ false }
    ensures { IfOk result (IsParting child.0 lower.now path.now) }
{
    let shared = shared_folder(alloc, lower, path)?;
    let mut children = BTreeMap::new(alloc);
    if let Some(name) = first_name_below(lower, &shared) {
        children.insert(String::from_str(alloc, name)?, child)?;
    }
    Ok(Node {
        location: shared,
        children,
        value: None,
    })
}

// The longest folder that both paths are or lie below.
fn shared_folder(alloc: Global, one: &CleanPath, other: &CleanPath) -> Result<CleanPath, AllocError>
    ensures { IfOk result (IsShared one.now other.now) }
{
    let mut folder = one.try_clone(alloc)?;
    while !other.is_below(&folder) {
        let _ = folder.go_up();
    }
    Ok(folder)
}

// Puts a node between a node and its child of a name.
fn put_between<T: Drop>(
    nodes: &mut Vec<Node<T>>,
    at: NodeId,
    name: String,
    parting: Node<T>,
) -> Result<NodeId, AllocError>
    requires place { at.0 < length nodes.old.items }
    requires way { IsSome (child_at nodes.old.items at.0 (string_bytes name)) }
    requires empty { parting.value ≡ None }
    ensures made { IfOk result (λ node. node.0 ≡ length nodes.old.items) }
    ensures ok { OnOk result (PutsBetween nodes.old.items nodes.new.items at.0 (string_bytes name) parting) }
    ensures err { OnErr result (nodes.new.items ≡ nodes.old.items) }
{
    let between = NodeId(nodes.len());
    nodes.reserve(1)?;
    nodes.push_reserved(parting);
    match lead(nodes, at, name, between) {
        Ok(()) => Ok(between),
        Err(_) => unreachable!(),
    }
}

// Puts a node between a node and its child of a name, and one beside that child.
fn put_beside<T: Drop>(
    alloc: Global,
    nodes: &mut Vec<Node<T>>,
    at: NodeId,
    name: String,
    mut parting: Node<T>,
    beside: String,
    location: CleanPath,
) -> Result<NodeId, AllocError>
    requires place { at.0 < length nodes.old.items }
    requires way { IsSome (child_at nodes.old.items at.0 (string_bytes name)) }
    requires empty { parting.value ≡ None }
    ensures made { IfOk result (λ node. node.0 ≡ suc (length nodes.old.items)) }
    ensures ok { OnOk result (PutsBeside nodes.old.items nodes.new.items at.0 (string_bytes name) parting
        (string_bytes beside) location) }
    ensures err { OnErr result (nodes.new.items ≡ nodes.old.items) }
{
    nodes.reserve(2)?;
    let between = NodeId(nodes.len());
    let made = NodeId(nodes.len() + 1);
    parting.children.insert(beside, made)?;
    nodes.push_reserved(parting);
    nodes.push_reserved(leaf(alloc, location));
    match lead(nodes, at, name, between) {
        Ok(()) => Ok(made),
        Err(_) => unreachable!(),
    }
}
