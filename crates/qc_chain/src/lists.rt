//! Lists of numbered nodes, linked both ways.

ghost use Rattle.std.specs.Prelude.{◌≡◌, ℕ, ◌+◌, ◌<◌, ◌≤◌, ◌^◌, [], ◌∷◌, map, length, replicate, slice_get, slice_set, slice_index, IfOk, IfSome, MatchOption};
ghost use Rattle.std.specs.List.{AllByRecursion};
ghost use Rattle.qc_chain.specs.Linked.{nodes_of, without, moved_last, standing, IsLast};

use qc_types::NoMemory;
use std::alloc::Global;
use std::marker::Model;

/// A number of lists, and a number of nodes, each in one of the lists at most. Contracts see the nodes of each list in their order. No call but `new` takes
/// memory, and each of them takes constant time.
#[derive(Drop)]
pub struct Lists {
    next: Vec<u32>,
    previous: Vec<u32>,
    nodes: u32,
}

impl Model for Lists {
    ghost use Rattle.qc_chain.specs.Linked.{Linked, lists_of, IsLinked};

    ghost Value = { Linked };

    ghost view = { λ l. record { lists = lists_of l.next.items l.nodes; nodes = l.nodes } };

    ghost invariant = { λ l. IsLinked l.next.items l.previous.items l.nodes };
}

impl Lists {
    /// So many lists without members, and so many nodes in none of them. It costs their number. Fails where memory lacks.
    pub fn new(alloc: Global, lists: u32, nodes: u32) -> Result<Lists, NoMemory>
        requires { lists + nodes < 2 ^ 32 }
        ensures { IfOk result (λ l. l ≡ record { lists = replicate lists []; nodes = nodes }) }
    {
        let next = own_places(alloc, nodes + lists)?;
        let previous = own_places(alloc, nodes + lists)?;
        Ok(Lists {
            next,
            previous,
            nodes,
        })
    }

    /// Takes a node out of its list, if it stands in one.
    pub fn take_out(&mut self, node: u32)
        requires { node < self.old.nodes }
        ensures moved { self.new ≡ record { lists = map (without node) self.old.lists; nodes = self.old.nodes } }
        ensures many { length self.new.lists ≡ length self.old.lists }
    {
        unlink(&mut self.next, &mut self.previous, node);
    }

    /// Puts a node at the end of a list. Where it stood in one before, it leaves that. Where it is the last already, nothing is written.
    pub fn put_last(&mut self, node: u32, list: u32)
        requires node { node < self.old.nodes }
        requires list { list < length self.old.lists }
        ensures moved { self.new ≡ record { lists = moved_last node list self.old.lists; nodes = self.old.nodes } }
        ensures many { length self.new.lists ≡ length self.old.lists }
    {
        let end = self.nodes + list;
        if self.previous[end as usize] == node {
            return;
        }
        unlink(&mut self.next, &mut self.previous, node);
        link(&mut self.next, &mut self.previous, node, end);
    }

    /// The first node of a list, if it has any.
    pub fn first(&self, list: u32) -> Option<u32>
        requires { list < length self.now.lists }
        ensures first { result ≡ slice_get (nodes_of list self.now.lists) 0 }
        ensures below { IfSome result (λ node. node < self.now.nodes) }
    {
        let place = self.next[(self.nodes + list) as usize];
        if place < self.nodes {
            Some(place)
        } else {
            None
        }
    }

    /// The last node of a list, if it has any.
    pub fn last(&self, list: u32) -> Option<u32>
        requires { list < length self.now.lists }
        ensures last { MatchOption result (nodes_of list self.now.lists ≡ []) (λ node. IsLast node (nodes_of list self.now.lists)) }
        ensures below { IfSome result (λ node. node < self.now.nodes) }
    {
        let node = self.previous[(self.nodes + list) as usize];
        if node < self.nodes { Some(node) } else { None }
    }

    /// The nodes of a list, one after another.
    pub fn walk(&self, list: u32) -> Walk<'_>
        requires { list < length self.now.lists }
        ensures nodes { result ≡ nodes_of list self.now.lists }
        ensures below { AllByRecursion (λ node. node < self.now.nodes) result }
        ensures once { (node : ℕ) → standing node self.now.lists ≤ 1 }
    {
        Walk {
            next: &self.next,
            nodes: self.nodes,
            place: self.next[(self.nodes + list) as usize],
        }
    }
}

/// What is left of the nodes of a list. Contracts see it as their list.
#[derive(Drop)]
pub struct Walk<'a> {
    next: &'a [u32],
    nodes: u32,
    place: u32,
}

impl<'a> Model for Walk<'a> {
    ghost use Rattle.std.specs.Prelude.{◌≡◌, ◌≤◌, ◌<◌, ℕ, List, slice_index, length};
    ghost use Rattle.qc_chain.specs.Linked.{walk, walk_end};

    ghost Value = { List ℕ };

    ghost view = { λ w. walk (slice_index w.next.now) w.nodes w.nodes w.place };

    ghost invariant = { λ w. (w.place < length w.next.now) × (w.nodes ≤ length w.next.now) × ((place : ℕ) → place < length w.next.now → slice_index w.next.now place < length w.next.now) × (w.nodes ≤ walk_end (slice_index w.next.now) w.nodes w.nodes w.place) };
}

impl<'a> Walk<'a> {
    /// The next node, each in its turn. None exactly after the last.
    pub fn next(&mut self) -> Option<u32>
        ensures { MatchOption result ((self.old ≡ []) × (self.new ≡ [])) (λ node. self.old ≡ node ∷ self.new) }
    {
        if self.place >= self.nodes {
            return None;
        }
        let node = self.place;
        self.place = self.next[node as usize];
        Some(node)
    }
}

/// Each place's own number.
fn own_places(alloc: Global, places: u32) -> Result<Vec<u32>, NoMemory>
    ensures { IfOk result (λ v. (length v.items ≡ places) × ((k : ℕ) → k < places → slice_index v.items k ≡ k)) }
{
    let mut numbers = Vec::with_capacity(alloc, places as usize)?;
    for place in 0..places {
        numbers.push_reserved(place);
    }
    Ok(numbers)
}

/// Links what stands before and behind a place to each other, and the place to itself.
fn unlink(next: &mut [u32], previous: &mut [u32], place: u32)
    requires place { place < length next.old }
    requires same { length previous.old ≡ length next.old }
    requires after { slice_index next.old place < length next.old }
    requires before { slice_index previous.old place < length next.old }
    ensures next { next.new ≡ slice_set (slice_set next.old (slice_index previous.old place) (slice_index next.old place)) place place }
    ensures previous { previous.new ≡ slice_set (slice_set previous.old (slice_index next.old place) (slice_index previous.old place)) place place }
{
    let before = previous[place as usize];
    let after = next[place as usize];
    next[before as usize] = after;
    previous[after as usize] = before;
    next[place as usize] = place;
    previous[place as usize] = place;
}

/// Links a place in front of another one.
fn link(next: &mut [u32], previous: &mut [u32], place: u32, end: u32)
    requires place { place < length next.old }
    requires end { end < length next.old }
    requires same { length previous.old ≡ length next.old }
    requires before { slice_index previous.old end < length next.old }
    ensures next { next.new ≡ slice_set (slice_set next.old (slice_index previous.old end) place) place end }
    ensures previous { previous.new ≡ slice_set (slice_set previous.old place (slice_index previous.old end)) end place }
{
    let last = previous[end as usize];
    next[last as usize] = place;
    previous[place as usize] = last;
    next[place as usize] = end;
    previous[end as usize] = place;
}
