//! The graph: nodes, over the chains of their keys.

ghost use Rattle.std.specs.Prelude.{◌≡◌, ◌≢◌, ℕ, Some, true, false, ◌+◌, ◌<◌, [], ◌∷◌, ◌++◌, length, map, drop, IfOk, IfErr, OnOk, OnErr};
ghost use Rattle.std.specs.List.{AllPairs};
ghost use Rattle.std.specs.Bool.{OnTrue, OnFalse};
ghost use Rattle.slab.specs.Slab.{slab_len};
ghost use Rattle.dependency_graph.specs.Graphs.{are_finished, blocker, gone, is_ready, IsNextReady, drop_finished, finish_at, mark_at, unfinished};
ghost use Rattle.dependency_graph.specs.Chains.{HasRoom};
ghost use Rattle.dependency_graph.specs.Ready.{IsListed, IsListedWithRoom, is_unblocked};
ghost use Rattle.dependency_graph.specs.Kept.{is_finished_first, is_finished_at, points, point_of, keys_at, IsKept, IsFrontOpen, CanRelease, Releases, LinksAll, CountsAll};

use crate::chains::Chains;
use crate::ready::Ready;
use rows::Key;
use std::alloc::{AllocError, Global};
use std::collections::VecDeque;
use std::marker::Model;

/// A node with its keys. An unfinished one counts the keys whose chain begins with an earlier node.
#[derive(Drop)]
struct GraphNode {
    finished: bool,
    waits: usize,
    keys: Vec<Key>,
}

/// Nodes from 0 on, each finished or not. The first `dropped` are finished, and the next is not.
pub struct Graph {
    dropped: usize,
    nodes: VecDeque<GraphNode>,
    chains: Chains,
    ready: Ready,
}

impl Drop for Graph {
    // (by hand: for a caller the end of a Graph is one call)
    fn drop(self) {
        let Graph {
            dropped: _dropped,
            nodes: _nodes,
            chains: _chains,
            ready: _ready,
        } = self;
    }
}

/// Whether the node is unfinished and waits for no key.
fn is_unblocked(node: &GraphNode) -> bool
    ensures { result ≡ is_unblocked node.now }
{
    !node.finished && node.waits == 0
}

/// Whether the first node is finished.
fn starts_finished(nodes: &VecDeque<GraphNode>) -> bool
    ensures { result ≡ is_finished_first nodes.now.items }
{
    match nodes.front() {
        Some(node) => node.finished,
        None => false,
    }
}

/// Whether the node is finished. A number without a node counts as finished.
fn is_finished(dropped: usize, nodes: &VecDeque<GraphNode>, node: usize) -> bool
    ensures { result ≡ is_finished_at (points dropped nodes.now.items) node }
{
    if node < dropped {
        return true;
    }
    match nodes.get(node - dropped) {
        Some(here) => here.finished,
        None => true,
    }
}

/// Lets an unfinished node that becomes the head of a chain wait for one key less.
fn release(dropped: usize, nodes: &mut VecDeque<GraphNode>, ready: &mut Ready, first: Option<usize>)
    requires { CanRelease dropped nodes.old.items first }
    ensures releases { Releases dropped nodes.old.items nodes.new.items first }
    ensures listed { IsListed dropped nodes.old.items ready.old → IsListed dropped nodes.new.items ready.new }
{
    if let Some(node) = first {
        if !is_finished(dropped, nodes, node) {
            nodes[node - dropped].waits -= 1;
            let free = nodes[node - dropped].waits == 0;
            ready.insert_if(node, free);
        }
    }
}

/// Makes room to list one more node.
fn make_room(
    dropped: usize,
    nodes: &VecDeque<GraphNode>,
    ready: &mut Ready,
) -> Result<(), AllocError>
    requires { dropped + length nodes.now.items < 4294967294 }
    ensures same { IsListed dropped nodes.now.items ready.old → IsListed dropped nodes.now.items ready.new }
    ensures room { OnOk result (IsListed dropped nodes.now.items ready.old → IsListedWithRoom dropped nodes.now.items ready.new) }
{
    if nodes.is_empty() {
        return ready.restart(dropped);
    }
    ready.reserve(dropped + nodes.len())
}

/// Whether there is a node, and it is finished.
fn is_done(dropped: usize, nodes: &VecDeque<GraphNode>, node: Option<usize>) -> bool
    ensures done { OnTrue result ((n : ℕ) × (node ≡ Some n) × (is_finished_at (points dropped nodes.now.items) n ≡ true)) }
    ensures stands { OnFalse result ((n : ℕ) → node ≡ Some n → is_finished_at (points dropped nodes.now.items) n ≡ false) }
{
    match node {
        Some(node) => is_finished(dropped, nodes, node),
        None => false,
    }
}

/// Takes a finished node off the head of the chain of a node's i-th key; returns whether another finished one is there then.
fn pop_finished(
    dropped: usize,
    nodes: &mut VecDeque<GraphNode>,
    chains: &mut Chains,
    ready: &mut Ready,
    at: usize,
    i: usize,
) -> bool
    requires in_range { i < length (keys_at nodes.old.items at) }
    requires kept { IsKept dropped nodes.old.items chains.old (drop i (keys_at nodes.old.items at)) }
    ensures kept { IsKept dropped nodes.new.items chains.new (drop i (keys_at nodes.new.items at)) }
    ensures same { map point_of nodes.new.items ≡ map point_of nodes.old.items }
    ensures fewer { OnTrue result (slab_len chains.new.edges < slab_len chains.old.edges) }
    ensures listed { IsListed dropped nodes.old.items ready.old → IsListed dropped nodes.new.items ready.new }
    ensures front { OnFalse result (IsFrontOpen (points dropped nodes.new.items) chains.new (drop i (keys_at nodes.new.items at))) }
{
    let key = &nodes[at].keys[i];
    let Some(first) = chains.first(key) else {
        return false;
    };
    if !is_finished(dropped, nodes, first) {
        return false;
    }
    let next = chains.pop(key);
    release(dropped, nodes, ready, next);
    is_done(dropped, nodes, next)
}

/// Takes all finished nodes off the head of the chain of a node's i-th key.
fn settle(
    dropped: usize,
    nodes: &mut VecDeque<GraphNode>,
    chains: &mut Chains,
    ready: &mut Ready,
    at: usize,
    i: usize,
)
    requires in_range { i < length (keys_at nodes.old.items at) }
    requires kept { IsKept dropped nodes.old.items chains.old (drop i (keys_at nodes.old.items at)) }
    ensures kept { IsKept dropped nodes.new.items chains.new (drop (i + 1) (keys_at nodes.new.items at)) }
    ensures same { map point_of nodes.new.items ≡ map point_of nodes.old.items }
    ensures listed { IsListed dropped nodes.old.items ready.old → IsListed dropped nodes.new.items ready.new }
{
    'settling: while pop_finished(dropped, nodes, chains, ready, at, i) {}
}

/// Marks a node as finished.
fn mark(
    dropped: usize,
    nodes: &mut VecDeque<GraphNode>,
    chains: &mut Chains,
    ready: &mut Ready,
    at: usize,
)
    requires in_range { at < length nodes.old.items }
    requires kept { IsKept dropped nodes.old.items chains.old [] }
    ensures kept { IsKept dropped nodes.new.items chains.new [] }
    ensures marked { points dropped nodes.new.items ≡ mark_at (points dropped nodes.old.items) (dropped + at) }
    ensures listed { IsListed dropped nodes.old.items ready.old → IsListed dropped nodes.new.items ready.new }
{
    ready.remove_if(dropped + at, is_unblocked(&nodes[at]));
    nodes[at].finished = true;
    for i in 0..nodes[at].keys.len() {
        settle(dropped, nodes, chains, ready, at, i);
    }
}

/// Appends the node, which is later than all others, to the chain of each key; returns how many of the keys have an earlier node.
fn link(chains: &mut Chains, keys: &[Key], node: usize) -> usize
    requires room { HasRoom chains.old keys.now }
    requires distinct { AllPairs (λ a b. a ≢ b) keys.now }
    ensures holds { LinksAll chains.old chains.new keys.now node }
    ensures waits { CountsAll chains.old keys.now node result }
{
    let mut waits = 0;
    for key in keys {
        if chains.push(key, node) {
            waits += 1;
        }
    }
    waits
}

impl Model for Graph {
    ghost use Rattle.std.specs.Prelude.{List, []};
    ghost use Rattle.std.specs.Coded.{coded_list};
    ghost use Rattle.dependency_graph.specs.Graphs.{Point, point_code};
    ghost use Rattle.dependency_graph.specs.Kept.{points};
    ghost use Rattle.dependency_graph.specs.Held.{IsHeld};

    ghost Value = { List Point };

    ghost coded = { coded_list point_code };

    ghost view = { λ g. points g.dropped g.nodes.items };

    ghost invariant = { λ g. IsHeld g.dropped g.nodes.items g.chains g.ready };
}

impl Graph {
    /// No nodes.
    pub fn start(alloc: Global) -> Graph
        ensures { result ≡ [] }
    {
        Graph {
            dropped: 0,
            nodes: VecDeque::new(alloc),
            chains: Chains::new(alloc),
            ready: Ready::new(alloc),
        }
    }

    /// The number of nodes.
    pub fn len(&self) -> usize
        ensures { result ≡ length self.now }
    {
        self.dropped + self.nodes.len()
    }

    /// Adds a node that touches these keys, each named once; returns its number.
    pub fn add(&mut self, keys: Vec<Key>) -> Result<usize, AllocError>
        requires room { length self.old < 4294967294 }
        requires distinct { AllPairs (λ a b. a ≢ b) keys.items }
        ensures added { OnOk result (self.new ≡ self.old ++ unfinished keys.items ∷ []) }
        ensures number { IfOk result (λ node. node ≡ length self.old) }
        ensures err { OnErr result (self.new ≡ self.old) }
    {
        self.chains.reserve(&keys)?;
        let at = self.nodes.len();
        let number = self.dropped + at;
        make_room(self.dropped, &self.nodes, &mut self.ready)?;
        let node = GraphNode {
            finished: false,
            waits: 0,
            keys,
        };
        self.nodes.push_back(node)?;
        let waits = link(&mut self.chains, &self.nodes[at].keys, number);
        self.nodes[at].waits = waits;
        self.ready.insert_if(number, waits == 0);
        Ok(number)
    }

    /// Adds a finished node without keys to a graph whose nodes are all finished. It does not allocate.
    pub fn add_finished(&mut self)
        requires room { length self.old < 4294967294 }
        requires finished { are_finished self.old ≡ true }
        ensures { self.new ≡ drop_finished (self.old ++ gone ∷ []) }
    {
        self.dropped += self.nodes.len() + 1;
        self.nodes.clear();
    }

    /// Marks the node as finished, and drops the longest finished prefix.
    pub fn finish(&mut self, node: usize)
        requires { node < length self.old }
        ensures { self.new ≡ finish_at self.old node }
    {
        if node >= self.dropped {
            let at = node - self.dropped;
            mark(
                self.dropped,
                &mut self.nodes,
                &mut self.chains,
                &mut self.ready,
                at,
            );
        }
        self.drop_front();
    }

    fn drop_front(&mut self)
        ensures { self.new ≡ drop_finished self.old }
    {
        while starts_finished(&self.nodes) {
            let _ = self.nodes.pop_front();
            self.dropped += 1;
            self.ready.pass(self.dropped);
        }
    }

    /// The least earlier unfinished node with a common key.
    pub fn blocker(&self, node: usize) -> Option<usize>
        requires { node < length self.now }
        ensures { result ≡ blocker self.now node }
    {
        let mut least = None;
        if node < self.dropped {
            return None;
        }
        let here = &self.nodes[node - self.dropped];
        if is_unblocked(here) {
            return None;
        }
        for key in &here.keys {
            if let Some(first) = self.chains.first(key) {
                if first < least.unwrap_or(node) {
                    least = Some(first);
                }
            }
        }
        least
    }

    /// Whether no earlier unfinished node has a common key.
    pub fn is_ready(&self, node: usize) -> bool
        requires { node < length self.now }
        ensures { result ≡ is_ready self.now node }
    {
        if node < self.dropped {
            return true;
        }
        let here = &self.nodes[node - self.dropped];
        if here.finished {
            return self.blocker(node).is_none();
        }
        here.waits == 0
    }

    /// The least unfinished node from this number on that is ready.
    pub fn next_ready(&self, from: usize) -> Option<usize>
        ensures { IsNextReady self.now from result }
    {
        let end = self.len();
        let mut node = if from < self.dropped {
            self.dropped
        } else {
            from
        };
        while node < end {
            if is_unblocked(&self.nodes[node - self.dropped]) {
                return Some(node);
            }
            node += 1;
            node += self.ready.skip(node);
        }
        None
    }
}

/// A graph with room for one more node, which can then be added or left out without an allocation.
#[derive(Drop)]
pub struct Reserved {
    dropped: usize,
    nodes: VecDeque<GraphNode>,
    chains: Chains,
    ready: Ready,
}

impl Model for Reserved {
    ghost use Rattle.dependency_graph.specs.Graphs.{Awaiting, awaiting_code};
    ghost use Rattle.dependency_graph.specs.Kept.{awaiting_of};
    ghost use Rattle.dependency_graph.specs.Held.{IsRoom};

    ghost Value = { Awaiting };

    ghost coded = { awaiting_code };

    ghost view = { λ r. awaiting_of r.dropped r.nodes.items };

    ghost invariant = { λ r. IsRoom r.dropped r.nodes.items r.chains r.ready };
}

impl Graph {
    /// Makes room for a node that touches these keys, each named once. If out of memory, it gives the graph back.
    pub fn reserve(self, keys: Vec<Key>) -> Result<Reserved, Graph>
        requires room { length self < 4294967294 }
        requires distinct { AllPairs (λ a b. a ≢ b) keys.items }
        ensures ok { IfOk result (λ r. r ≡ record { nodes = self; keys = keys.items }) }
        ensures err { IfErr result (λ graph. graph ≡ self) }
    {
        let Graph {
            dropped,
            mut nodes,
            mut chains,
            mut ready,
        } = self;
        let Ok(()) = chains.reserve(&keys) else {
            return Err(Graph {
                dropped,
                nodes,
                chains,
                ready,
            });
        };
        let Ok(()) = make_room(dropped, &nodes, &mut ready) else {
            return Err(Graph {
                dropped,
                nodes,
                chains,
                ready,
            });
        };
        let node = GraphNode {
            finished: false,
            waits: 0,
            keys,
        };
        let Ok(()) = nodes.push_back(node) else {
            return Err(Graph {
                dropped,
                nodes,
                chains,
                ready,
            });
        };
        Ok(Reserved {
            dropped,
            nodes,
            chains,
            ready,
        })
    }
}

impl Reserved {
    /// Adds the node.
    pub fn add(self) -> Graph
        ensures { result ≡ self.nodes ++ unfinished self.keys ∷ [] }
    {
        let Reserved {
            dropped,
            mut nodes,
            mut chains,
            mut ready,
        } = self;
        let at = nodes.len() - 1;
        let waits = link(&mut chains, &nodes[at].keys, dropped + at);
        nodes[at].waits = waits;
        ready.insert_if(dropped + at, waits == 0);
        Graph {
            dropped,
            nodes,
            chains,
            ready,
        }
    }

    /// Leaves the node out.
    pub fn cancel(self) -> Graph
        ensures { result ≡ self.nodes }
    {
        let Reserved {
            dropped,
            mut nodes,
            chains,
            ready,
        } = self;
        let _ = nodes.pop_back();
        Graph {
            dropped,
            nodes,
            chains,
            ready,
        }
    }
}
