ghost use Rattle.std.specs.Prelude.{◌≡◌, ◌↔◌, All, IsTrue, ◌<◌, ◌≤◌, ◌+◌, ◌-◌, ◌*◌, ◌++◌, ◌∷◌, ◌^◌};
ghost use Rattle.std.specs.Prelude.{ℕ, [], map, length, vec_len, slice_set, nat_lt, IfOk, IfSome};
ghost use Rattle.std.specs.Prelude.{IfNone, OnErr, OnOk, true, false};
ghost use Rattle.use_counts.specs.Marked.{mark, IsFirstStale, IsLastUseStale};
ghost use Rattle.use_counts.specs.NodeRule.{HasRank, node_at, rank_at, rank_of, row_at, new_node};
ghost use Rattle.use_counts.specs.NodesInside.{AreKeys, list_of};
ghost use Rattle.use_counts.specs.Held.{member_of};
ghost use Rattle.use_counts.specs.Network.{Rises, row_of};

use crate::marks::Marks;
use crate::node::{Edge, Node, Row};
use slab::Slab;
use std::alloc::{AllocError, Global};
use std::marker::Model;

/// The nodes by number. The ranks of those that are stale are marked, so that the next is found by
/// words.
#[derive(Drop)]
pub struct Nodes {
    slab: Slab<Node>,
    keys: Vec<usize>,
    made: usize,
    stale: Marks,
    use_stale: Marks,
}

impl Model for Nodes {
    ghost use Rattle.std.specs.Prelude.{List};
    ghost use Rattle.use_counts.specs.declared.node.Node.{Node};

    ghost Value = { List Node };

    ghost use Rattle.use_counts.specs.NodesInside.{list_of, AreSound};

    ghost view = { λ n. list_of n.slab n.keys.items };

    ghost invariant = { λ n. AreSound n.slab n.keys.items n.made n.stale n.use_stale };
}

/// The nodes of some rows, and their keys.
fn stored(
    alloc: Global,
    rows: &[Row],
    ranks: &[usize],
) -> Result<(Slab<Node>, Vec<usize>), AllocError>
    requires { length ranks.now ≡ length rows.now }
    ensures keys { IfOk result (λ s. AreKeys s.0 s.1.items) }
    ensures size { IfOk result (λ s. vec_len s.1 ≡ length rows.now) }
    ensures nodes { IfOk result (λ s. (k : ℕ) → k < length rows.now
        → node_at (list_of s.0 s.1.items) k ≡ new_node (rank_of ranks.now k) (row_at rows.now k)) }
{
    let mut slab = Slab::new(alloc);
    let mut keys = Vec::new(alloc);
    for place in 0..rows.len() {
        let key = slab.insert(Node::new(rows[place], ranks[place]))?;
        keys.push(key)?;
    }
    Ok((slab, keys))
}

/// The marks of so many ranks, from the first on.
fn all_marked(alloc: Global, made: usize) -> Result<Marks, AllocError>
    requires { made + 64 < 2 ^ 64 }
    ensures room { IfOk result (λ m. made ≤ 64 * length m) }
    ensures within { IfOk result (λ m. (n : ℕ) → mark m n ≡ 1 → n < made) }
    ensures marked { IfOk result (λ m. (n : ℕ) → n < made → mark m n ≡ 1) }
{
    let mut marks = Marks::new(alloc, made)?;
    for number in 0..made {
        marks.put(number, true);
    }
    Ok(marks)
}

impl Nodes {
    /// The nodes of some rows, of which so many are made. All made ones are stale.
    pub fn new(
        alloc: Global,
        rows: &[Row],
        ranks: &[usize],
        made: usize,
    ) -> Result<Nodes, AllocError>
        requires size { length ranks.now ≡ length rows.now }
        requires few { made + 64 < 2 ^ 64 }
        requires top { (k : ℕ) → rank_of ranks.now k ≤ made }
        requires one { (j k : ℕ) → 0 < rank_of ranks.now j → rank_of ranks.now j
            ≡ rank_of ranks.now k → j ≡ k }
        requires all { (turn : ℕ) → turn < made → HasRank ranks.now turn }
        ensures size { IfOk result (λ n. length n ≡ length rows.now) }
        ensures nodes { IfOk result (λ n. (k : ℕ) → k < length rows.now → node_at n k
            ≡ new_node (rank_of ranks.now k) (row_at rows.now k)) }
    {
        let (slab, keys) = stored(alloc, rows, ranks)?;
        let stale = all_marked(alloc, made)?;
        let use_stale = Marks::new(alloc, made)?;
        Ok(Nodes {
            slab,
            keys,
            made,
            stale,
            use_stale,
        })
    }

    /// One more node, without a rank. Where memory lacks, all stays.
    pub fn add(&mut self, row: Row) -> Result<(), AllocError>
        ensures ok { OnOk result (self.new ≡ self.old ++ new_node 0 row ∷ []) }
        ensures err { OnErr result (self.new ≡ self.old) }
    {
        self.keys.reserve(1)?;
        let key = self.slab.insert(Node::new(row, 0))?;
        self.keys.push_reserved(key);
        Ok(())
    }

    /// How many nodes there are.
    pub fn len(&self) -> usize
        ensures { result ≡ length self.now }
    {
        self.keys.len()
    }

    /// The node of a number.
    pub fn node(&self, place: usize) -> Node
        requires { place < length self.now }
        ensures { result ≡ node_at self.now place }
    {
        self.slab[self.keys[place]]
    }

    /// The rows of the nodes.
    pub fn rows(&self, alloc: Global) -> Result<Vec<Row>, AllocError>
        ensures { IfOk result (λ rows. rows.items ≡ map row_of (map member_of self.now)) }
    {
        let mut rows = Vec::new(alloc);
        for place in 0..self.len() {
            let node = self.node(place);
            rows.push(Row {
                kind: node.kind,
                level: node.level,
            })?;
        }
        Ok(rows)
    }

    fn rises(&self, edge: Edge) -> bool
        ensures { IsTrue result ↔ Rises (map member_of self.now) edge }
    {
        if edge.lower >= self.len() || edge.upper >= self.len() {
            return false;
        }
        let upper = self.node(edge.upper);
        upper.kind.is_made() && self.node(edge.lower).level < upper.level
    }

    /// Whether each edge goes from a VLAN or bridge to a node of a lower level.
    pub fn all_rise(&self, edges: &[Edge]) -> bool
        ensures { IsTrue result ↔ All (Rises (map member_of self.now)) edges.now }
    {
        for edge in edges {
            if !self.rises(*edge) {
                return false;
            }
        }
        true
    }

    /// Writes the node of a number. Its rank stays.
    pub fn put(&mut self, place: usize, node: Node)
        requires within { place < length self.old }
        requires rank { node.rank ≡ rank_at self.old place }
        ensures { self.new ≡ slice_set self.old place node }
    {
        let key = self.keys[place];
        self.slab[key] = node;
        if node.rank > 0 {
            self.stale.put(node.rank - 1, node.stale);
            self.use_stale.put(self.made - node.rank, node.use_stale);
        }
    }

    /// The least rank of a stale made node, less 1.
    pub fn first_stale(&mut self) -> Option<usize>
        ensures same { self.new ≡ self.old }
        ensures found { IfSome result (IsFirstStale self.old) }
        ensures none { IfNone result ((k : ℕ) → 0 < rank_at self.old k → (node_at self.old k).stale
            ≡ false) }
    {
        self.stale.first()
    }

    /// The greatest rank of a made node whose use is stale, less 1.
    pub fn last_use_stale(&mut self) -> Option<usize>
        ensures same { self.new ≡ self.old }
        ensures found { IfSome result (IsLastUseStale self.old) }
        ensures none { IfNone result ((k : ℕ) → 0 < rank_at self.old k
            → (node_at self.old k).use_stale ≡ false) }
    {
        match self.use_stale.first() {
            Some(number) => Some(self.made - 1 - number),
            None => None,
        }
    }
}
