// The open entries of the link search: a binary heap in the first n places of two lent slices. The
// least estimate comes first and, on equal estimates, the lower node.
ghost use Rattle.std.specs.Prelude.{◌≡◌, ◌+◌, ◌*◌, ◌<◌, set};
ghost use Rattle.links.specs.Heap.{before_of, entry_at, Lent, Ordered, Pushed, Popped};
ghost use Rattle.links.specs.Sift.{Risen, Lesser, Sunk};

use super::{NodeNo, node_in, put_node};
use std::cmp::Ordering;

#[derive(Clone, Copy)]
pub struct Entry {
    pub est: f64,
    pub node: NodeNo,
}

// No `Ord`: a float derives none, and two plain comparisons settle nearly all.
pub fn before(a: Entry, b: Entry) -> bool
    ensures { result ≡ before_of a b }
{
    if a.est < b.est {
        return true;
    }
    if b.est < a.est {
        return false;
    }
    // Equal, or zeros of unlike sign, or a NaN.
    let o = numbers::order::total_cmp(a.est, b.est);
    match o {
        Ordering::Less => true,
        Ordering::Equal => usize::from(a.node) < usize::from(b.node),
        Ordering::Greater => false,
    }
}

fn read(ests: &[f64], nodes: &[u32], i: usize) -> Entry
    requires { Lent ests.now nodes.now (i + 1) }
    ensures { result ≡ entry_at ests.now nodes.now i }
{
    Entry {
        est: ests[i],
        node: node_in(nodes, i),
    }
}

fn write(ests: &mut [f64], nodes: &mut [u32], i: usize, e: Entry)
    requires { Lent ests.old nodes.old (i + 1) }
    ensures ests_after { ests.new ≡ set ests.old i e.est }
    ensures nodes_after { nodes.new ≡ set nodes.old i e.node.0 }
{
    ests[i] = e.est;
    put_node(nodes, i, e.node);
}

// Moves the hole at n up past every entry that e comes before; the place where it stops.
fn rise(ests: &mut [f64], nodes: &mut [u32], n: usize, e: Entry) -> usize
    requires lent { Lent ests.old nodes.old (n + 1) }
    requires ordered { Ordered (entry_at ests.old nodes.old) n }
    ensures { Risen ests.old nodes.old n e ests.new nodes.new result }
{
    // The hole goes from child to parent, which no range does.
    let mut k = n;
    while 0 < k {
        let up = (k - 1) / 2;
        let f = read(ests, nodes, up);
        if !before(e, f) {
            return k;
        }
        write(ests, nodes, k, f);
        k = up;
    }
    k
}

// Adds e to n entries.
pub fn push(ests: &mut [f64], nodes: &mut [u32], n: usize, e: Entry)
    requires lent { Lent ests.old nodes.old (n + 1) }
    requires ordered { Ordered (entry_at ests.old nodes.old) n }
    ensures { Pushed ests.old nodes.old n e ests.new nodes.new }
{
    let k = rise(ests, nodes, n, e);
    write(ests, nodes, k, e);
}

// The child of k, which has one among the first n, that comes first.
fn child(ests: &[f64], nodes: &[u32], n: usize, k: usize) -> usize
    requires lent { Lent ests.now nodes.now n }
    requires k_bound { 2 * k + 1 < n }
    ensures { Lesser (entry_at ests.now nodes.now) n k result }
{
    let a = 2 * k + 1;
    let b = a + 1;
    if b < n {
        if before(read(ests, nodes, b), read(ests, nodes, a)) {
            return b;
        }
    }
    a
}

// Moves the hole at 0 down past every entry of n that comes before e; the place where it stops.
fn sink(ests: &mut [f64], nodes: &mut [u32], n: usize, e: Entry) -> usize
    requires lent { Lent ests.old nodes.old (n + 1) }
    requires ordered { Ordered (entry_at ests.old nodes.old) (n + 1) }
    requires e_value { e ≡ entry_at ests.old nodes.old n }
    ensures { Sunk ests.old nodes.old n e ests.new nodes.new result }
{
    // The hole goes from parent to child, which no range does.
    let mut k = 0;
    while 2 * k + 1 < n {
        let c = child(ests, nodes, n, k);
        let f = read(ests, nodes, c);
        if !before(f, e) {
            return k;
        }
        write(ests, nodes, k, f);
        k = c;
    }
    k
}

// Takes the first of n entries.
pub fn pop(ests: &mut [f64], nodes: &mut [u32], n: usize) -> Entry
    requires n_nonzero { 0 < n }
    requires lent { Lent ests.old nodes.old n }
    requires ordered { Ordered (entry_at ests.old nodes.old) n }
    ensures { Popped ests.old nodes.old n result ests.new nodes.new }
{
    let first = read(ests, nodes, 0);
    let m = n - 1;
    let last = read(ests, nodes, m);
    let k = sink(ests, nodes, m, last);
    write(ests, nodes, k, last);
    first
}
