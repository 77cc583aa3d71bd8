ghost use Rattle.std.specs.Prelude.{◌≡◌, ◌≤◌, ◌<◌, ◌+◌, ◌++◌, ◌∷◌, ◌^◌, ℕ, All, length};
ghost use Rattle.std.specs.Prelude.{slice_index, vec_capacity, vec_len, IfOk, OnOk, []};
ghost use Rattle.use_counts.specs.NodeRule.{rank_of};
ghost use Rattle.use_counts.specs.Edges.{lower_end, upper_end, far_ends};
ghost use Rattle.use_counts.specs.Held.{IsOrder, RunsUp, items_at};

use crate::node::Edge;
use std::alloc::{AllocError, Global};

#[derive(Drop)]
pub struct Topology {
    pub order: Vec<usize>,
    pub ranks: Vec<usize>,
    pub edges: Vec<Edge>,
    pub uppers: Vec<Vec<usize>>,
    pub lowers: Vec<Vec<usize>>,
    ghost stand: { All (λ e. RunsUp (rank_of ranks.items)
        (vec_len uppers) e.lower e.upper) edges.items },
    ghost ordered: { IsOrder order.items (rank_of ranks.items) (vec_len uppers) },
    ghost ranked: { vec_len ranks ≡ vec_len uppers },
    ghost few: { length edges.items < 2 ^ 20 },
    ghost sizes: { vec_len lowers ≡ vec_len uppers },
    ghost uppers_are: { (k : ℕ) → k < vec_len uppers → items_at uppers.items k
        ≡ far_ends upper_end lower_end edges.items k },
    ghost lowers_are: { (k : ℕ) → k < vec_len lowers → items_at lowers.items k
        ≡ far_ends lower_end upper_end edges.items k },
}

fn no_lists(alloc: Global, count: usize) -> Result<Vec<Vec<usize>>, AllocError>
    ensures { IfOk result (λ v. (vec_len v ≡ count) × ((k : ℕ) → items_at v.items k ≡ [])) }
{
    let mut lists = Vec::new(alloc);
    for _ in 0..count {
        lists.push(Vec::new(alloc))?;
    }
    Ok(lists)
}

fn list_uppers(alloc: Global, count: usize, edges: &[Edge]) -> Result<Vec<Vec<usize>>, AllocError>
    requires { All (λ e. e.lower < count) edges.now }
    ensures { IfOk result (λ v. (vec_len v ≡ count)
        × ((k : ℕ) → k < count → items_at v.items k ≡ far_ends upper_end lower_end edges.now k)) }
{
    let mut lists = no_lists(alloc, count)?;
    for edge in edges {
        lists[edge.lower].push(edge.upper)?;
    }
    Ok(lists)
}

fn list_lowers(alloc: Global, count: usize, edges: &[Edge]) -> Result<Vec<Vec<usize>>, AllocError>
    requires { All (λ e. e.upper < count) edges.now }
    ensures { IfOk result (λ v. (vec_len v ≡ count)
        × ((k : ℕ) → k < count → items_at v.items k ≡ far_ends lower_end upper_end edges.now k)) }
{
    let mut lists = no_lists(alloc, count)?;
    for edge in edges {
        lists[edge.upper].push(edge.lower)?;
    }
    Ok(lists)
}

impl Topology {
    pub fn new(
        alloc: Global,
        order: Vec<usize>,
        ranks: Vec<usize>,
        edges: Vec<Edge>,
    ) -> Result<Topology, AllocError>
        requires stand { All (λ e. RunsUp (rank_of ranks.items)
            (vec_len ranks) e.lower e.upper) edges.items }
        requires few { length edges.items < 2 ^ 20 }
        requires ordered { IsOrder order.items (rank_of ranks.items) (vec_len ranks) }
        ensures { IfOk result (λ s. (s.ranks.items ≡ ranks.items) × (s.edges.items ≡ edges.items)
            × (vec_len s.uppers ≡ vec_len ranks)) }
    {
        let uppers = list_uppers(alloc, ranks.len(), &edges)?;
        let lowers = list_lowers(alloc, ranks.len(), &edges)?;
        Ok(Topology {
            order,
            ranks,
            edges,
            uppers,
            lowers,
        })
    }

    /// Makes room for one more place.
    pub fn make_room(&mut self) -> Result<(), AllocError>
        ensures ranks { self.new.ranks.items ≡ self.old.ranks.items }
        ensures edges { self.new.edges.items ≡ self.old.edges.items }
        ensures size { vec_len self.new.uppers ≡ vec_len self.old.uppers }
        ensures rank_room { OnOk result (vec_len self.new.ranks < vec_capacity self.new.ranks) }
        ensures upper_room { OnOk result (vec_len self.new.uppers < vec_capacity self.new.uppers) }
        ensures lower_room { OnOk result (vec_len self.new.lowers < vec_capacity self.new.lowers) }
    {
        self.ranks.reserve(1)?;
        self.uppers.reserve(1)?;
        self.lowers.reserve(1)?;
        Ok(())
    }

    /// One more place, without a rank and without edges.
    pub fn add(&mut self, alloc: Global)
        requires rank_room { vec_len self.old.ranks < vec_capacity self.old.ranks }
        requires upper_room { vec_len self.old.uppers < vec_capacity self.old.uppers }
        requires lower_room { vec_len self.old.lowers < vec_capacity self.old.lowers }
        ensures ranks { self.new.ranks.items ≡ self.old.ranks.items ++ 0 ∷ [] }
        ensures edges { self.new.edges.items ≡ self.old.edges.items }
        ensures size { vec_len self.new.uppers ≡ vec_len self.old.uppers + 1 }
    {
        self.ranks.push_reserved(0);
        self.uppers.push_reserved(Vec::new(alloc));
        self.lowers.push_reserved(Vec::new(alloc));
    }

    pub fn rank(&self, place: usize) -> usize
        requires { place < vec_len self.now.uppers }
        ensures { result ≡ rank_of self.now.ranks.items place }
    {
        self.ranks[place]
    }

    pub fn made_count(&self) -> usize
        ensures { result ≡ length self.now.order.items }
    {
        self.order.len()
    }

    pub fn made_at(&self, turn: usize) -> usize
        requires { turn < length self.now.order.items }
        ensures { result ≡ slice_index self.now.order.items turn }
    {
        self.order[turn]
    }

    pub fn uppers(&self, place: usize) -> &[usize]
        requires { place < vec_len self.now.uppers }
        ensures { result.now ≡ far_ends upper_end lower_end self.now.edges.items place }
    {
        &self.uppers[place]
    }

    pub fn lowers(&self, place: usize) -> &[usize]
        requires { place < vec_len self.now.uppers }
        ensures { result.now ≡ far_ends lower_end upper_end self.now.edges.items place }
    {
        &self.lowers[place]
    }
}
