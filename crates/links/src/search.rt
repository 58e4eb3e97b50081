// The search for a way over the lattice. Two slices hold its state: a number for each node (the node
// before it; its cost), then the heap of open entries (their nodes; their estimates). In the u32 of the
// workspace, of n cells, the squares of the distance to stock, or words that tell the nodes as they do, are at
// 0 and the state is where setup's layout has the nodes before and the heap.
ghost use Rattle.std.specs.Prelude.{◌≡◌, ◌++◌, ◌+◌, ◌-◌, ◌*◌, ◌≤◌, ◌<◌, length, drop, replicate};
ghost use Rattle.loops.specs.Frame.{Only};
ghost use Rattle.raster.specs.Grid.{Over};
ghost use Rattle.setup.specs.Layout.{before_from, segments_from};
ghost use Rattle.links.specs.Lattice.{nodes, IsNode};
ghost use Rattle.links.specs.Search.{top, no_node, started, opened, reopened, improved, offer_of, reachable, visit_of, expand_of, seek_step, seek_of};
ghost use Rattle.links.specs.Search.{search_in, Ready, Grown, cells, squares_in, words_in, Searching, Visited, Sound, outcome_in, turn_in, Turned};

use super::heap::Entry;
use super::lattice::Net;
use super::{NO_NODE, NodeNo, put_node};
use setup::layout;

// Whether the goal was reached, and how many nodes were expanded, which counts in both cases: no Option.
#[derive(Clone, Copy)]
pub struct Sought {
    pub found: bool,
    pub expanded: usize,
}

// What a turn of the search leads to: that many open entries, or the answer. `ControlFlow` would say no more.
#[derive(Clone, Copy)]
pub enum Turn {
    On(usize),
    Out(Sought),
}

// No node has a way yet.
fn reset(words: &mut [u32], costs: &mut [f64], n: usize)
    requires n_in_bounds { n ≤ length words.old }
    requires n_in_bounds_2 { n ≤ length costs.old }
    ensures words_after { words.new ≡ replicate n no_node ++ drop n words.old }
    ensures costs_after { costs.new ≡ replicate n top ++ drop n costs.old }
{
    words[0..n].fill(NO_NODE.0);
    costs[0..n].fill(f64::from_bits(0x7ff0_0000_0000_0000));
}

// Adds e to the m open entries.
fn add(words: &mut [u32], costs: &mut [f64], n: usize, m: usize, e: Entry)
    requires ready { Ready n m words.old costs.old }
    requires m_bound { m < 9 * n }
    requires n_bound { n ≤ 1048576 }
    ensures costs_after { search_in n (m + 1) words.new costs.new ≡ opened e (search_in n m words.old costs.old) }
    ensures grown { Grown n (m + 1) words.old costs.old words.new costs.new }
{
    let end = 10 * n;
    super::heap::push(&mut costs[n..end], &mut words[n..end], m, e);
}

// Takes the first of the m open entries.
fn next(words: &mut [u32], costs: &mut [f64], n: usize, m: usize) -> Entry
    requires ready { Ready n m words.old costs.old }
    requires m_nonzero { 0 < m }
    requires n_bound { n ≤ 1048576 }
    ensures costs_value { search_in n m words.old costs.old ≡ reopened result (search_in n (m - 1) words.new costs.new) }
    ensures grown { Grown n (m - 1) words.old costs.old words.new costs.new }
{
    let end = 10 * n;
    super::heap::pop(&mut costs[n..end], &mut words[n..end], m)
}

// Node e's way over v is better.
fn improve(words: &mut [u32], costs: &mut [f64], n: usize, m: usize, v: NodeNo, cand: f64, e: Entry)
    requires ready { Ready n m words.old costs.old }
    requires m_bound { m < 9 * n }
    requires n_bound { n ≤ 1048576 }
    requires node_lt_n { e.node.0 < n }
    ensures costs_after { search_in n (m + 1) words.new costs.new ≡ improved v cand e (search_in n m words.old costs.old) }
    ensures grown { Grown n (m + 1) words.old costs.old words.new costs.new }
{
    let k = usize::from(e.node);
    costs[k] = cand;
    put_node(words, k, v);
    add(words, costs, n, m, e);
}

// Offers the way over v to its neighbour t; how many entries are open then.
fn offer(net: Net, words: &mut [u32], costs: &mut [f64], m: usize, v: NodeNo, t: NodeNo) -> usize
    requires node { IsNode net.lattice v }
    requires node_2 { IsNode net.lattice t }
    requires ready { Ready (nodes net.lattice) m words.old costs.old }
    requires m_bound { m < 9 * nodes net.lattice }
    ensures costs_after { let l = net.lattice in search_in (nodes l) result words.new costs.new ≡ offer_of l v t (search_in (nodes l) m words.old costs.old) }
    ensures grown { Grown (nodes net.lattice) result words.old costs.old words.new costs.new }
    ensures upper_bound { result ≤ m + 1 }
{
    let n = net.nodes();
    let here = net.centre(t);
    let i = usize::from(v);
    let cand = costs[i] + net.centre(v).distance(here);
    let j = usize::from(t);
    if cand < costs[j] {
        let est = cand + here.distance(net.lattice.end);
        improve(words, costs, n, m, v, cand, Entry { est, node: t });
        return m + 1;
    }
    m
}

// The start costs 0, and is open.
fn begin(net: Net, words: &mut [u32], costs: &mut [f64])
    requires l_in_bounds { 10 * nodes net.lattice ≤ length words.old }
    requires l_in_bounds_2 { 10 * nodes net.lattice ≤ length costs.old }
    ensures costs_after { search_in (nodes net.lattice) 1 words.new costs.new ≡ started net.lattice }
    ensures grown { Grown (nodes net.lattice) 1 words.old costs.old words.new costs.new }
{
    let n = net.nodes();
    reset(words, costs, n);
    let v = net.lattice.start;
    let i = usize::from(v);
    costs[i] = 0.0;
    let est = net.centre(v).distance(net.lattice.end);
    add(words, costs, n, 0, Entry { est, node: v });
}

// A search over a net, through the cells where the tool may go.
#[derive(Clone, Copy)]
pub struct Seeker<'a> {
    pub net: Net,
    pub allowed: &'a [u8],
    ghost over: { Over net.lattice.grid (length allowed.now) },
}

impl Seeker<'_> {
    // The goal may be close to stock.
    fn reaches(&self, squares: &[u32], t: NodeNo) -> bool
        requires node { IsNode self.now.net.lattice t }
        requires over { Over self.now.net.lattice.grid (length squares.now) }
        ensures { result ≡ reachable self.now.net.lattice self.now.allowed.now squares.now t }
    {
        if t == self.net.lattice.goal {
            return true;
        }
        self.net.node_free(self.allowed, squares, t)
    }

    // Offers the way over v to its neighbour d. Of u, the squares are read and the state is written.
    fn visit(&self, u: &mut [u32], costs: &mut [f64], m: usize, v: NodeNo, d: usize) -> usize
        requires node { IsNode self.now.net.lattice v }
        requires searching { Searching self.now.net.lattice m u.old costs.old }
        requires m_bound { m < 9 * nodes self.now.net.lattice }
        requires d_bound { d < 8 }
        ensures costs_after { let l = self.now.net.lattice in search_in (nodes l) result (words_in l u.new) costs.new ≡ visit_of l self.now.allowed.now (squares_in l u.old) v d (search_in (nodes l) m (words_in l u.old) costs.old) }
        ensures visited { Visited self.now.net.lattice result u.old costs.old u.new costs.new }
        ensures upper_bound { result ≤ m + 1 }
    {
        let Some(t) = self.net.beside(v, d) else {
            return m;
        };
        let n = layout::cells(self.net.lattice.grid);
        let from = layout::before(n);
        let to = layout::segments(n);
        if self.reaches(&u[0..n], t) {
            return offer(self.net, &mut u[from..to], costs, m, v, t);
        }
        m
    }

    // Offers the way over v to all its neighbours.
    fn expand(&self, u: &mut [u32], costs: &mut [f64], len: usize, v: NodeNo) -> usize
        requires node { IsNode self.now.net.lattice v }
        requires searching { Searching self.now.net.lattice len u.old costs.old }
        requires len_bound { len + 8 ≤ 9 * nodes self.now.net.lattice }
        ensures costs_after { let l = self.now.net.lattice in search_in (nodes l) result (words_in l u.new) costs.new ≡ expand_of l self.now.allowed.now (squares_in l u.old) v (search_in (nodes l) len (words_in l u.old) costs.old) }
        ensures visited { Visited self.now.net.lattice result u.old costs.old u.new costs.new }
        ensures upper_bound { result ≤ len + 8 }
    {
        let mut m = len;
        for d in 0..8 {
            m = self.visit(u, costs, m, v, d);
        }
        m
    }

    // A turn of the search, i nodes being expanded.
    fn step(&self, u: &mut [u32], costs: &mut [f64], m: usize, i: usize) -> Turn
        requires searching { Searching self.now.net.lattice m u.old costs.old }
        requires sound { let l = self.now.net.lattice in Sound (nodes l) (search_in (nodes l) m (words_in l u.old) costs.old) }
        requires m_bound { m ≤ 8 * i + 1 }
        requires i_bound { i ≤ nodes self.now.net.lattice }
        ensures costs_after { let l = self.now.net.lattice in turn_in l result u.new costs.new ≡ seek_step l self.now.allowed.now (squares_in l u.old) i (search_in (nodes l) m (words_in l u.old) costs.old) }
        ensures turned { Turned self.now.net.lattice i result u.old costs.old u.new costs.new }
    {
        if m == 0 {
            return Turn::Out(Sought {
                found: false,
                expanded: i,
            });
        }
        let n = layout::cells(self.net.lattice.grid);
        let from = layout::before(n);
        let to = layout::segments(n);
        let most = self.net.nodes();
        let e = next(&mut u[from..to], costs, most, m);
        let v = e.node;
        if v == self.net.lattice.goal {
            return Turn::Out(Sought {
                found: true,
                expanded: i,
            });
        }
        if most <= i {
            return Turn::Out(Sought {
                found: false,
                expanded: i + 1,
            });
        }
        Turn::On(self.expand(u, costs, m - 1, v))
    }

    // The turns of the search from its beginning on.
    fn run(&self, u: &mut [u32], costs: &mut [f64]) -> Sought
        requires searching { Searching self.now.net.lattice 1 u.old costs.old }
        requires costs_value { let l = self.now.net.lattice in search_in (nodes l) 1 (words_in l u.old) costs.old ≡ started l }
        ensures u_after { let l = self.now.net.lattice in outcome_in l result u.new ≡ seek_of l self.now.allowed.now (squares_in l u.old) }
        ensures only { let l = self.now.net.lattice in Only (before_from (cells l)) (segments_from (cells l)) u.old u.new }
        ensures costs_len_unchanged { length costs.new ≡ length costs.old }
    {
        let mut m = 1;
        for i in 0..self.net.nodes() + 1 {
            let t = self.step(u, costs, m, i);
            match t {
                Turn::On(k) => m = k,
                Turn::Out(o) => return o,
            }
        }
        // Not reached: the last turn has no node left to expand, and answers.
        Sought {
            found: false,
            expanded: 0,
        }
    }

    // The way from start to goal that costs least: the least estimate first, then the lower node.
    pub fn seek(&self, u: &mut [u32], costs: &mut [f64]) -> Sought
        requires l_in_bounds { segments_from (cells self.now.net.lattice) ≤ length u.old }
        requires l_in_bounds_2 { 10 * cells self.now.net.lattice ≤ length costs.old }
        ensures u_after { let l = self.now.net.lattice in outcome_in l result u.new ≡ seek_of l self.now.allowed.now (squares_in l u.old) }
        ensures only { let l = self.now.net.lattice in Only (before_from (cells l)) (segments_from (cells l)) u.old u.new }
        ensures costs_len_unchanged { length costs.new ≡ length costs.old }
    {
        let n = layout::cells(self.net.lattice.grid);
        let from = layout::before(n);
        let to = layout::segments(n);
        begin(self.net, &mut u[from..to], costs);
        self.run(u, costs)
    }
}
