//! Breadth-first search for what can be reached over some of a graph's arcs, in time linear in
//! nodes and arcs.
ghost use Rattle.graph_flow.specs.Flows.{unit_at};
ghost use Rattle.graph_flow.specs.Marks.{is_seen, depth_of, mark_at, IsMarked, IsSpread, IsSearch};
ghost use Rattle.graph_flow.specs.Marks.{Follows, Steps};
ghost use Rattle.graph_flow.specs.Paths.{IsGraph};
ghost use Rattle.graph_flow.specs.Residual.{residual};
ghost use Rattle.graph_flow.specs.SearchedArcs.{AreWays, arcs_by, gives};
ghost use Rattle.graph_flow.specs.declared.arcs.Arc.{Arc};
ghost use Rattle.std.specs.Prelude.{◌≡◌, ◌≢◌, ◌≤◌, ◌<◌, ◌+◌, ◌^◌, IfOk, IsTrue, IsFalse, replicate};
ghost use Rattle.std.specs.Prelude.{List, vec_len, ℕ, Contains, Some, None, slice_set};

use crate::arcs::Arc;
use crate::graph::Graph;
use crate::searched_arcs::Ways;
use arc_base::Memory;
use std::alloc::Global;

/// What a search knows of a node: nothing yet, that it began there, or over which arc and after how
/// many it came there.
#[derive(Clone, Copy, Debug, PartialEq, Eq)]
pub(crate) enum Mark {
    Unseen,
    Start,
    After(Arc, u32),
}

/// The room of a breadth-first search: what it knows of each node, and the nodes in the order in
/// which it came to them.
#[derive(Debug, Drop)]
pub(crate) struct Search {
    pub(crate) marks: Vec<Mark>,
    pub(crate) queue: Vec<u32>,
}

impl Search {
    pub(crate) fn make(alloc: Global, nodes: u32) -> Result<Search, Memory>
        ensures marks { IfOk result (λ search. search.marks.items ≡ replicate nodes Mark.Unseen) }
        ensures queue { IfOk result (λ search. vec_len search.queue ≡ nodes) }
    {
        Ok(Search {
            marks: vec![in alloc; Mark::Unseen; nodes as usize]?,
            queue: vec![in alloc; 0; nodes as usize]?,
        })
    }

    /// Whether the last search reached a node.
    pub(crate) fn is_seen(&self, node: u32) -> bool
        requires { node < vec_len self.now.marks }
        ensures { result ≡ is_seen (mark_at self.now.marks.items node) }
    {
        !matches!(self.marks[node as usize], Mark::Unseen)
    }

    /// Looks for all nodes to which a way leads, and answers how many they are.
    pub(crate) fn run(&mut self, g: &Graph, ways: Ways<'_>, from: u32) -> usize
        requires from { from < g.now.nodes }
        requires marks { vec_len self.old.marks ≡ g.now.nodes }
        requires queue { vec_len self.old.queue ≡ g.now.nodes }
        requires ways { AreWays g.now.arcs ways }
        ensures spread { IsSpread (arcs_by ways.entry g.now.arcs) from self.new.marks.items }
        ensures search { IsSearch (arcs_by ways.entry g.now.arcs) from self.new.marks.items
            self.new.queue.items result result }
        ensures marks { vec_len self.new.marks ≡ vec_len self.old.marks }
        ensures queue { vec_len self.new.queue ≡ vec_len self.old.queue }
    {
        self.begin(from);
        self.close(g, ways, from, 0, 1)
    }

    /// Looks for a way to a node, and stops once it has found one.
    pub(crate) fn seek(&mut self, g: &Graph, ways: Ways<'_>, from: u32, to: u32)
        requires from { from < g.now.nodes }
        requires to { to < g.now.nodes }
        requires marks { vec_len self.old.marks ≡ g.now.nodes }
        requires queue { vec_len self.old.queue ≡ g.now.nodes }
        requires ways { AreWays g.now.arcs ways }
        ensures marked { IsMarked (arcs_by ways.entry g.now.arcs) from self.new.marks.items }
        ensures spread { IsFalse (is_seen (mark_at self.new.marks.items to)) →
            IsSpread (arcs_by ways.entry g.now.arcs) from self.new.marks.items }
        ensures marks { vec_len self.new.marks ≡ vec_len self.old.marks }
        ensures queue { vec_len self.new.queue ≡ vec_len self.old.queue }
    {
        self.begin(from);
        let mut count = 1;
        let mut looked = 0;
        while looked < count {
            if self.is_seen(to) {
                return;
            }
            count = self.look(g, ways, from, looked, count);
            looked += 1;
        }
    }

    /// Takes the unit of an arc away, which opens the arc from a node that is reached to one that
    /// is not, and looks for all nodes to which a way leads now. It answers how many they are.
    pub(crate) fn widen(
        &mut self,
        g: &Graph,
        carried: &mut [Option<Arc>],
        from: u32,
        arc: Arc,
        count: usize,
    ) -> usize
        requires graph { IsGraph g.now }
        requires few { g.now.nodes < 2 ^ 32 }
        requires marks { vec_len self.old.marks ≡ g.now.nodes }
        requires queue { vec_len self.old.queue ≡ g.now.nodes }
        requires units { (link : ℕ) (arc : Arc) → unit_at carried.old link ≡ Some arc →
            Contains g.now.arcs arc }
        requires of_link { (link : ℕ) (arc : Arc) → unit_at carried.old link ≡ Some arc →
            arc.link.0 ≡ link }
        requires arc { unit_at carried.old arc.link.0 ≡ Some arc }
        requires tail { IsTrue (is_seen (mark_at self.old.marks.items arc.tail)) }
        requires head { IsFalse (is_seen (mark_at self.old.marks.items arc.head)) }
        requires search { IsSearch (residual carried.old g.now.arcs) from self.old.marks.items
            self.old.queue.items count count }
        ensures search { IsSearch (residual carried.new g.now.arcs) from self.new.marks.items
            self.new.queue.items result result }
        ensures carried { carried.new ≡ slice_set carried.old arc.link.0 None }
        ensures marks { vec_len self.new.marks ≡ vec_len self.old.marks }
        ensures queue { vec_len self.new.queue ≡ vec_len self.old.queue }
    {
        carried[arc.link.0 as usize] = None;
        let more = self.follow(arc, arc.tail, count);
        self.close(g, Ways::Room(carried), from, count, more)
    }

    /// Looks at the nodes of the queue from a place on, and answers how many it has in the end.
    fn close(&mut self, g: &Graph, ways: Ways<'_>, from: u32, looked: usize, count: usize) -> usize
        requires place { looked ≤ count }
        requires marks { vec_len self.old.marks ≡ g.now.nodes }
        requires queue { vec_len self.old.queue ≡ g.now.nodes }
        requires ways { AreWays g.now.arcs ways }
        requires search { IsSearch (arcs_by ways g.now.arcs) from self.old.marks.items
            self.old.queue.items count looked }
        ensures search { IsSearch (arcs_by ways.entry g.now.arcs) from self.new.marks.items
            self.new.queue.items result result }
        ensures marks { vec_len self.new.marks ≡ vec_len self.old.marks }
        ensures queue { vec_len self.new.queue ≡ vec_len self.old.queue }
    {
        let mut count = count;
        let mut looked = looked;
        while looked < count {
            count = self.look(g, ways, from, looked, count);
            looked += 1;
        }
        count
    }

    /// Forgets what was found, and begins at a node.
    pub(crate) fn begin(&mut self, from: u32)
        requires marks { from < vec_len self.old.marks }
        requires queue { vec_len self.old.queue ≡ vec_len self.old.marks }
        ensures search { (arcs : List Arc) →
            IsSearch arcs from self.new.marks.items self.new.queue.items 1 0 }
        ensures marks { vec_len self.new.marks ≡ vec_len self.old.marks }
        ensures queue { vec_len self.new.queue ≡ vec_len self.old.queue }
    {
        for mark in self.marks.iter_mut() {
            *mark = Mark::Unseen;
        }
        self.marks[from as usize] = Mark::Start;
        self.queue[0] = from;
    }

    /// Looks at the arcs of one node of the queue, and answers how many nodes the queue then has.
    fn look(&mut self, g: &Graph, ways: Ways<'_>, from: u32, looked: usize, count: usize) -> usize
        requires place { looked < count }
        requires marks { vec_len self.old.marks ≡ g.now.nodes }
        requires queue { vec_len self.old.queue ≡ g.now.nodes }
        requires ways { AreWays g.now.arcs ways }
        requires search { IsSearch (arcs_by ways g.now.arcs) from self.old.marks.items
            self.old.queue.items count looked }
        ensures search { IsSearch (arcs_by ways.entry g.now.arcs) from self.new.marks.items
            self.new.queue.items result (looked + 1) }
        ensures more { count ≤ result }
        ensures marks { vec_len self.new.marks ≡ vec_len self.old.marks }
        ensures queue { vec_len self.new.queue ≡ vec_len self.old.queue }
    {
        let node = self.queue[looked];
        let mut count = count;
        for arc in g.touching(node) {
            count = self.step(ways, arc, node, count);
        }
        count
    }

    /// Follows what an arc gives that begins or ends at the node. Mostly it leads to a node that
    /// was seen before, which is found without a look at what its link carries.
    fn step(&mut self, ways: Ways<'_>, arc: &Arc, node: u32, count: usize) -> usize
        requires apart { arc.now.tail ≢ arc.now.head }
        requires within { arc.now.head < vec_len self.old.marks }
        requires head { (next : Arc) → gives ways arc.now ≡ Some next →
            next.head < vec_len self.old.marks }
        requires node { IsTrue (is_seen (mark_at self.old.marks.items node)) }
        requires shallow { depth_of (mark_at self.old.marks.items node) < count }
        requires queue { vec_len self.old.queue ≡ vec_len self.old.marks }
        requires few { vec_len self.old.marks < 2 ^ 32 }
        requires room { (head : ℕ) → head < vec_len self.old.marks →
            IsFalse (is_seen (mark_at self.old.marks.items head)) → count < vec_len self.old.queue }
        ensures steps { Steps (gives ways.entry arc.now) self.old.marks.items
            self.old.queue.items count node self.new.marks.items self.new.queue.items result }
        ensures marks { vec_len self.new.marks ≡ vec_len self.old.marks }
        ensures queue { vec_len self.new.queue ≡ vec_len self.old.queue }
    {
        if arc.tail == node && self.is_seen(arc.head) {
            return count;
        }
        match ways.over(arc) {
            Some(next) => self.follow(next, node, count),
            None => count,
        }
    }

    /// Adds the head of an arc to the queue, where the arc leads from the node and its head was
    /// not seen before.
    fn follow(&mut self, arc: Arc, node: u32, count: usize) -> usize
        requires head { arc.head < vec_len self.old.marks }
        requires node { IsTrue (is_seen (mark_at self.old.marks.items node)) }
        requires shallow { depth_of (mark_at self.old.marks.items node) < count }
        requires queue { vec_len self.old.queue ≡ vec_len self.old.marks }
        requires few { vec_len self.old.marks < 2 ^ 32 }
        requires room { IsFalse (is_seen (mark_at self.old.marks.items arc.head)) →
            count < vec_len self.old.queue }
        ensures follows { Follows self.old.marks.items self.old.queue.items count arc node
            self.new.marks.items self.new.queue.items result }
        ensures marks { vec_len self.new.marks ≡ vec_len self.old.marks }
        ensures queue { vec_len self.new.queue ≡ vec_len self.old.queue }
    {
        if arc.tail != node || self.is_seen(arc.head) {
            return count;
        }
        let depth = self.depth(node);
        self.marks[arc.head as usize] = Mark::After(arc, depth + 1);
        self.queue[count] = arc.head;
        count + 1
    }

    fn depth(&self, node: u32) -> u32
        requires { node < vec_len self.now.marks }
        ensures { result ≡ depth_of (mark_at self.now.marks.items node) }
    {
        match self.marks[node as usize] {
            Mark::After(_, depth) => depth,
            Mark::Unseen | Mark::Start => 0,
        }
    }
}
