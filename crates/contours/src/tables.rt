// The tables by edge number: which edge follows an edge, and a byte for the two sets of edges, 1 where one is
// used, 2 where a segment leads into it.
ghost use Rattle.std.specs.Prelude.{◌≡◌, ◌<◌, length, ◌==◌, slice_index, slice_set};
ghost use Rattle.raster.specs.Grid.{Over};
ghost use Rattle.contours.specs.Edge.{edge};
ghost use Rattle.contours.specs.March.{march};
ghost use Rattle.contours.specs.Traced.{Listed, Inserted, Sized, Tabled};

use super::edge::{EdgeNo, NOTHING, edge_at, put_edge};
use super::march::march;
use super::places::{next_at, rows_at};
use raster::grid::Grid;

// The edge after e.
pub fn next_of(next: &[u32], e: EdgeNo) -> EdgeNo
    requires { e.0 < length next.now }
    ensures { result ≡ edge (slice_index next.now e.0) }
{
    edge_at(next, usize::from(e))
}

pub fn is_used(marks: &[u8], e: EdgeNo) -> bool
    requires { e.0 < length marks.now }
    ensures { result ≡ (slice_index marks.now e.0 == 1) }
{
    marks[usize::from(e)] == 1
}

pub fn use_edge(marks: &mut [u8], e: EdgeNo)
    requires { e.0 < length marks.old }
    ensures { marks.new ≡ slice_set marks.old e.0 1 }
{
    marks[usize::from(e)] = 1;
}

// The m segments in turn: of those that leave one edge, the last one counts.
fn insert_all(n: usize, m: usize, words: &mut [u32], marks: &mut [u8])
    requires { Listed n m words.old marks.old }
    ensures { Inserted n m words.old marks.old words.new marks.new }
{
    let next = next_at(n);
    for k in 0..m {
        let i = 2 * k;
        let from = edge_at(words, i);
        let to = edge_at(words, i + 1);
        put_edge(words, next + usize::from(from), to);
        marks[usize::from(to)] = 2;
    }
}

// The segments where the field crosses the level, and their tables; how many there are.
pub fn tabulate(
    g: Grid,
    f: &[f32],
    level: f32,
    n: usize,
    words: &mut [u32],
    marks: &mut [u8],
) -> usize
    requires over { Over g (length f.now) }
    requires sized { Sized g n words.old marks.old }
    ensures { Tabled g n (march g f.now level) result words.new marks.new }
{
    let next = next_at(n);
    let rows = rows_at(n);
    let m = march(g, f, level, &mut words[0..next]);
    words[next..rows].fill(NOTHING.0);
    marks.fill(0);
    insert_all(n, m, words, marks);
    m
}
