//! Nodes that are kept together, so that nodes of the same state are joined.

ghost use Rattle.std.specs.Prelude.{◌≡◌, ◌+◌, ◌≤◌, ◌<◌, ◌^◌, ◌++◌, ℕ, List, [], ◌∷◌, All, IfOk, IfSome, OnOk, length, map, slice_get, Some};
ghost use Rattle.counting.specs.Tallies.{both};
ghost use Rattle.merging.specs.declared.node.Node.{Node as NodeValue};
ghost use Rattle.merging.specs.declared.search.Search.{Search as SearchValue};
ghost use Rattle.merging.specs.Merging.{AllBegun, AllStand, AreAlike, AreSameNodes, Bound, Forgets, HasSome, IsFresh, IsPoint, IsSameNode, NonePassed, Outlook, Point, most_of, point, seen, slots_tally, tally_of_nodes, unless_at};

use crate::begun::Beginnings;
use crate::digest::digest_of;
use crate::node::Node;
use std::alloc::{AllocError, Global};
use std::collections::HashMap;

/// Returns the digest of a node. Nodes that are not one rarely have the same digest.
fn digest(node: &mut Node) -> u64
    ensures { IsSameNode node.old node.new }
{
    digest_of(
        node.left.as_slice(),
        node.marks.as_slice(),
        &mut node.kernel,
    )
}

/// The most keys that are tried for one digest.
const MOST_ALIKE: usize = 1_000;

/// States before one event of a list. If more than `MOST_ALIKE` of them have the same digest, a state can be here
/// twice. Then less is merged, and all counts are the same.
#[derive(Drop)]
pub struct Layer {
    pub nodes: Vec<Node>,
    /// The index of the node with each key. The key is the digest of the node, or the next free one if another state
    /// has that.
    numbers: HashMap<u64, usize>,
}

impl Layer {
    /// Returns a layer without states.
    pub fn new(alloc: Global) -> Layer
        ensures { result.nodes.items ≡ [] }
    {
        Layer {
            nodes: Vec::new(alloc),
            numbers: HashMap::new(alloc),
        }
    }

    /// Returns the index of the node with this key, if that is one with `node`.
    fn find_at(&mut self, key: u64, node: &mut Node) -> Option<usize>
        requires { All (λ n. n.kernel.state.world ≡ node.old.kernel.state.world) self.old.nodes.items }
        ensures one { IfSome result (λ i. (n : NodeValue) × (slice_get self.new.nodes.items i ≡ Some n) × AreAlike (point n) (point node.new)) }
        ensures nodes { AreSameNodes self.old.nodes.items self.new.nodes.items }
        ensures node { IsSameNode node.old node.new }
    {
        let number = *self.numbers.get(&key)?;
        if number < self.nodes.len() && self.nodes[number].is_one(node) {
            return Some(number);
        }
        None
    }

    /// Returns the index of the node that is one with `node`. If none is found, fails with the key for `node`.
    fn find(&mut self, digest: u64, node: &mut Node) -> Result<usize, u64>
        requires { All (λ n. n.kernel.state.world ≡ node.old.kernel.state.world) self.old.nodes.items }
        ensures one { IfOk result (λ i. (n : NodeValue) × (slice_get self.new.nodes.items i ≡ Some n) × AreAlike (point n) (point node.new)) }
        ensures nodes { AreSameNodes self.old.nodes.items self.new.nodes.items }
        ensures node { IsSameNode node.old node.new }
    {
        let mut key = digest;
        for _alike in 0..MOST_ALIKE {
            if !self.numbers.contains_key(&key) {
                return Err(key);
            }
            if let Some(number) = self.find_at(key, node) {
                return Ok(number);
            }
            key = key.wrapping_add(1);
        }
        Err(key)
    }

    /// Adds a node with this key after the others, and returns its index.
    fn push(&mut self, key: u64, node: Node) -> Result<usize, AllocError>
        ensures { IfOk result (λ i. (self.new.nodes.items ≡ self.old.nodes.items ++ node ∷ []) × (i ≡ length self.old.nodes.items)) }
    {
        let index = self.nodes.len();
        match self.numbers.insert(key, index) {
            Ok(_) => {
                self.nodes.push(node)?;
                Ok(index)
            }
            Err(e) => {
                drop(node);
                Err(e.into())
            }
        }
    }

    /// Returns the index of the node that is one with `node`. Adds `node`, which has no beginnings, if none is found.
    pub fn locate(&mut self, node: Node) -> Result<usize, AllocError>
        requires worlds { All (λ n. n.kernel.state.world ≡ node.kernel.state.world) self.old.nodes.items }
        requires fresh { IsFresh (seen node) }
        ensures one { IfOk result (λ i. (m : NodeValue) × (slice_get self.new.nodes.items i ≡ Some m) × AreAlike (point m) (point node)) }
        ensures points { OnOk result ((more : List Point) × (map point self.new.nodes.items ≡ map point self.old.nodes.items ++ more)) }
        ensures tally { (go_on past : Outlook) (most : ℕ) → OnOk result (tally_of_nodes go_on past most self.new.nodes.items ≡ tally_of_nodes go_on past most self.old.nodes.items) }
        ensures stand { (s : SearchValue) (place : ℕ) (bounds : ℕ → Bound) → AllStand s place bounds (map point self.old.nodes.items) self.old.nodes.items → IsPoint s place (point node) → node.kernel.events ≤ place + most_of s
            → IfOk result (λ i. AllStand s place (unless_at i bounds) (map point self.new.nodes.items) self.new.nodes.items) }
        ensures passed { NonePassed self.old.nodes.items → OnOk result (NonePassed self.new.nodes.items) }
    {
        let mut node = node;
        let digest = digest(&mut node);
        match self.find(digest, &mut node) {
            Ok(index) => {
                drop(node);
                Ok(index)
            }
            Err(key) => {
                let index = self.push(key, node)?;
                Ok(index)
            }
        }
    }

    /// Adds beginnings to the node that is one with `node`, and returns its index. Adds `node`, which has no
    /// beginnings, if none is found.
    pub fn insert(&mut self, node: Node, begun: Beginnings) -> Result<usize, AllocError>
        requires worlds { All (λ n. n.kernel.state.world ≡ node.kernel.state.world) self.old.nodes.items }
        requires fresh { IsFresh (seen node) }
        ensures one { IfOk result (λ i. (m : NodeValue) × (slice_get self.new.nodes.items i ≡ Some m) × AreAlike (point m) (point node)) }
        ensures points { OnOk result ((more : List Point) × (map point self.new.nodes.items ≡ map point self.old.nodes.items ++ more)) }
        ensures tally { (go_on past : Outlook) (most : ℕ) → Forgets go_on → OnOk result (tally_of_nodes go_on past most self.new.nodes.items ≡ both (tally_of_nodes go_on past most self.old.nodes.items) (slots_tally go_on most (point node) begun)) }
        ensures stand { (s : SearchValue) (place fewest : ℕ) (bounds : ℕ → Bound) → AllStand s place bounds (map point self.old.nodes.items) self.old.nodes.items → IsPoint s place (point node) → node.kernel.events ≤ place + most_of s
            → ((i : ℕ) → (bounds i).fewest ≤ fewest) → AllBegun s place fewest (point node) begun → HasSome begun
            → OnOk result (AllStand s place bounds (map point self.new.nodes.items) self.new.nodes.items) }
        ensures passed { NonePassed self.old.nodes.items → OnOk result (NonePassed self.new.nodes.items) }
    {
        let index = self.locate(node)?;
        self.nodes[index].begun.add_all(begun)?;
        Ok(index)
    }
}
