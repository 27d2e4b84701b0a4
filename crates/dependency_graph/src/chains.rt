//! For each key the chain of the nodes that touch it, in ascending order, linked by index.

ghost use Rattle.std.specs.Prelude.{◌≡◌, ℕ, [], ◌∷◌, Some, None, is_some, OnOk, OnErr};
ghost use Rattle.std.specs.HashMap.{IsUnchanged};
ghost use Rattle.slab.specs.Slab.{HasRoomFor};
ghost use Rattle.rows.specs.declared.change.Key.{Key as KeyValue};
ghost use Rattle.dependency_graph.specs.Chains.{Holds, HasEntry, HasLast, HasRoom, IsOpened, IsSame, KeepsRoom, Links, Pushes, PopsFirst, edge_at, extend_ends, ends_at, first_of, node_at, with_chain};

use key_table::KeyTable;
use rows::Key;
use slab::Slab;
use std::alloc::{AllocError, Global};

/// A node in the chain of one key, and the edge after it there.
#[derive(Clone, Copy, Drop)]
pub struct Edge {
    pub node: usize,
    pub after: Option<usize>,
}

/// The first and the last edge of a chain.
#[derive(Clone, Copy, Drop)]
pub struct Ends {
    pub first: usize,
    pub last: usize,
}

/// Edges in a vector with a free list, and a hashed table from each key to the ends of its chain.
#[derive(Drop)]
pub struct Chains {
    pub edges: Slab<Edge>,
    pub table: KeyTable<Key, Option<Ends>>,
}

/// The ends of a chain once this edge is appended.
fn extend_ends(at: usize, before: Option<Ends>) -> Ends
    ensures { result ≡ extend_ends at before }
{
    let first = match before {
        Some(ends) => ends.first,
        None => at,
    };
    Ends { first, last: at }
}

/// Ensures that the key has an entry.
fn open_entry(table: &mut KeyTable<Key, Option<Ends>>, key: Key) -> Result<(), AllocError>
    ensures ok { OnOk result (IsOpened key table.old.entries table.new.entries) }
    ensures err { OnErr result (IsUnchanged table.old table.new) }
{
    table.open(key, None)?;
    Ok(())
}

impl Chains {
    /// No key has a node.
    pub fn new(alloc: Global) -> Chains
        ensures { Holds result (λ k. []) }
    {
        Chains {
            edges: Slab::new(alloc),
            table: KeyTable::new(alloc),
        }
    }

    fn ends(&self, key: &Key) -> Option<Ends>
        ensures { result ≡ ends_at self.now key.now }
    {
        match self.table.get(key) {
            Some(ends) => *ends,
            None => None,
        }
    }

    /// The node of an edge.
    fn node_at(&self, at: usize) -> Option<usize>
        ensures { result ≡ node_at self.now at }
    {
        match self.edges.get(at) {
            Some(edge) => Some(edge.node),
            None => None,
        }
    }

    /// The first node of the key's chain.
    pub fn first(&self, key: &Key) -> Option<usize>
        ensures { result ≡ first_of self.now key.now }
    {
        let ends = self.ends(key)?;
        self.node_at(ends.first)
    }

    /// Ensures that the key has an entry, and changes no chain.
    fn open(&mut self, key: &Key) -> Result<(), AllocError>
        ensures edges { self.new.edges ≡ self.old.edges }
        ensures same { (k : KeyValue) → ends_at self.new k ≡ ends_at self.old k }
        ensures stays { (k : KeyValue) → HasEntry self.old k → HasEntry self.new k }
        ensures opened { OnOk result (HasEntry self.new key.now) }
    {
        let Ok(()) = open_entry(&mut self.table, key.copy()?) else {
            return Err(AllocError);
        };
        Ok(())
    }

    /// Makes room for one more edge at each of the keys.
    pub fn reserve(&mut self, keys: &[Key]) -> Result<(), AllocError>
        ensures same { IsSame self.old self.new }
        ensures room { OnOk result (HasRoom self.new keys.now) }
    {
        self.edges.reserve(keys.len())?;
        for key in keys {
            self.open(key)?;
        }
        Ok(())
    }

    /// Writes the ends of a key's chain.
    fn put_ends(&mut self, key: &Key, ends: Ends)
        requires { HasEntry self.old key.now }
        ensures edges { self.new.edges ≡ self.old.edges }
        ensures ends { (k : KeyValue) → ends_at self.new k ≡ with_chain (ends_at self.old) key.now (Some ends) k }
        ensures stays { (k : KeyValue) → HasEntry self.old k → HasEntry self.new k }
    {
        let Some(_before) = self.table.replace(key, Some(ends)) else {
            return;
        };
    }

    /// Makes this edge the last of the key's chain; returns the ends that the chain had before.
    fn put_last(&mut self, key: &Key, at: usize) -> Option<Ends>
        requires { HasEntry self.old key.now }
        ensures edges { self.new.edges ≡ self.old.edges }
        ensures before { result ≡ ends_at self.old key.now }
        ensures ends { (k : KeyValue) → ends_at self.new k ≡ with_chain (ends_at self.old) key.now (Some (extend_ends at (ends_at self.old key.now))) k }
        ensures stays { (k : KeyValue) → HasEntry self.old k → HasEntry self.new k }
    {
        let Some(place) = self.table.get_index_of(key) else {
            return None;
        };
        let before = *self.table.value_at(place);
        let ends = extend_ends(at, before);
        self.table.replace_at(place, Some(ends));
        before
    }

    /// Links an edge after another.
    fn link(&mut self, last: usize, at: usize)
        ensures table { self.new.table ≡ self.old.table }
        ensures linked { Links self.old self.new last at }
        ensures others { (j : ℕ) → (j ≡ last → ⊥) → edge_at self.new j ≡ edge_at self.old j }
        ensures room { (more : ℕ) → HasRoomFor self.old.edges more → HasRoomFor self.new.edges more }
    {
        if let Some(edge) = self.edges.get_mut(last) {
            edge.after = Some(at);
        }
    }

    /// Appends the node, which is later than all others, to the key's chain; returns whether the chain had a node.
    pub fn push(&mut self, key: &Key, node: usize) -> bool
        requires { HasRoom self.old (key.now ∷ []) }
        ensures pushes { HasLast self.old key.now → Pushes self.old self.new key.now node }
        ensures had_one { result ≡ is_some (ends_at self.old key.now) }
        ensures room { KeepsRoom self.old self.new }
    {
        let at = self.edges.insert_reserved(Edge { node, after: None });
        let Some(before) = self.put_last(key, at) else {
            return false;
        };
        self.link(before.last, at);
        true
    }

    /// Removes the first node of the key's chain; returns the one that is first then.
    pub fn pop(&mut self, key: &Key) -> Option<usize>
        ensures pops { PopsFirst self.old self.new key.now }
        ensures next { result ≡ first_of self.new key.now }
    {
        let ends = self.ends(key)?;
        let edge = self.edges.try_remove(ends.first)?;
        let Some(first) = edge.after else {
            self.close(key);
            return None;
        };
        let last = ends.last;
        self.put_ends(key, Ends { first, last });
        self.node_at(first)
    }

    /// Removes a key's entry.
    fn close(&mut self, key: &Key)
        ensures edges { self.new.edges ≡ self.old.edges }
        ensures ends { (k : KeyValue) → ends_at self.new k ≡ with_chain (ends_at self.old) key.now None k }
    {
        let _ = self.table.swap_remove(key);
    }
}
