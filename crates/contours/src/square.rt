// One square of the lattice of cell centres: which of its edges a level's segments join, and which way
// round. Its corners are counted from the lower left one, the right one next.
ghost use Rattle.std.specs.Prelude.{◌≡◌, length};
ghost use Rattle.raster.specs.Grid.{Sides, Over};
ghost use Rattle.contours.specs.Square.{InGrid, Joins, square_at, has_nan, weight_of, code_of, edges_of, cut_of, saddle_of, joined_of, corners_of, nearer_of, nearest_of, turned_of, directed_of};

use super::edge::{EdgeNo, across, crossing, upward};
use geom::vec2::Vec2;
use raster::grid::{Grid, cell_no, center, index_of};

// The lower left column and row, and the field at the corners.
#[derive(Clone, Copy)]
pub struct Square {
    pub i: usize,
    pub j: usize,
    pub v0: f32,
    pub v1: f32,
    pub v2: f32,
    pub v3: f32,
}

#[derive(Clone, Copy)]
pub struct Edges {
    pub bottom: EdgeNo,
    pub right: EdgeNo,
    pub top: EdgeNo,
    pub left: EdgeNo,
}

#[derive(Clone, Copy)]
pub struct Segment {
    pub from: EdgeNo,
    pub to: EdgeNo,
}

// The two segments of a saddle.
#[derive(Clone, Copy)]
pub struct Saddle {
    pub first: Segment,
    pub second: Segment,
}

#[derive(Clone, Copy)]
pub struct Corner {
    pub at: Vec2,
    pub v: f32,
}

#[derive(Clone, Copy)]
pub struct Corners {
    pub c0: Corner,
    pub c1: Corner,
    pub c2: Corner,
    pub c3: Corner,
}

// The nearest corner so far.
#[derive(Clone, Copy)]
pub struct Near {
    pub corner: Corner,
    pub distance: f64,
}

pub fn square_at(g: Grid, f: &[f32], i: usize, j: usize) -> Square
    requires over { Over g (length f.now) }
    requires in_grid { InGrid g i j }
    ensures { result ≡ square_at g f.now i j }
{
    let nx = g.nx;
    let k = index_of(cell_no(g, i, j));
    Square {
        i,
        j,
        v0: f[k],
        v1: f[k + 1],
        v2: f[k + 1 + nx],
        v3: f[k + nx],
    }
}

pub fn has_nan(q: Square) -> bool
    ensures { result ≡ has_nan q }
{
    (q.v0 != q.v0) | (q.v1 != q.v1) | (q.v2 != q.v2) | (q.v3 != q.v3)
}

// What a corner adds to the code where it is above the level.
fn weight(v: f32, level: f32, w: usize) -> usize
    ensures { result ≡ weight_of v level w }
{
    if v > level { w } else { 0 }
}

pub fn code_of(q: Square, level: f32) -> usize
    ensures { result ≡ code_of q level }
{
    weight(q.v0, level, 1)
        + weight(q.v1, level, 2)
        + weight(q.v2, level, 4)
        + weight(q.v3, level, 8)
}

pub fn edges_of(g: Grid, i: usize, j: usize) -> Edges
    requires sides { Sides g }
    requires in_grid { InGrid g i j }
    ensures { result ≡ edges_of g i j }
{
    let c = cell_no(g, i, j);
    Edges {
        bottom: across(c),
        right: upward(cell_no(g, i + 1, j)),
        top: across(cell_no(g, i, j + 1)),
        left: upward(c),
    }
}

// The segment of a code that has one.
pub fn cut(e: Edges, code: usize) -> Segment
    ensures { result ≡ cut_of e code }
{
    let eb = e.bottom;
    let er = e.right;
    let et = e.top;
    let el = e.left;
    match code {
        1 => Segment { from: eb, to: el },
        2 => Segment { from: er, to: eb },
        3 => Segment { from: er, to: el },
        4 => Segment { from: et, to: er },
        6 => Segment { from: et, to: eb },
        7 => Segment { from: et, to: el },
        8 => Segment { from: el, to: et },
        9 => Segment { from: eb, to: et },
        11 => Segment { from: er, to: et },
        12 => Segment { from: el, to: er },
        13 => Segment { from: eb, to: er },
        _ => Segment { from: el, to: eb },
    }
}

// Whether the centre of a saddle is above the level: its high corners are joined then.
pub fn joined(q: Square, level: f32) -> bool
    ensures { result ≡ joined_of q level }
{
    (q.v0 + q.v1 + q.v2 + q.v3) * 0.25 > level
}

// The segments of the codes 5 and 10.
pub fn saddle_of(e: Edges, code: usize, joined: bool) -> Saddle
    ensures { result ≡ saddle_of e code joined }
{
    let eb = e.bottom;
    let er = e.right;
    let et = e.top;
    let el = e.left;
    if code == 5 {
        if joined {
            return Saddle {
                first: Segment { from: eb, to: el },
                second: Segment { from: et, to: er },
            };
        }
        return Saddle {
            first: Segment { from: eb, to: er },
            second: Segment { from: et, to: el },
        };
    }
    if joined {
        return Saddle {
            first: Segment { from: er, to: eb },
            second: Segment { from: el, to: et },
        };
    }
    Saddle {
        first: Segment { from: er, to: et },
        second: Segment { from: el, to: eb },
    }
}

fn corners_of(g: Grid, q: Square) -> Corners
    requires { InGrid g q.i q.j }
    ensures { result ≡ corners_of g q }
{
    let i = q.i;
    let j = q.j;
    Corners {
        c0: Corner {
            at: center(g, i, j),
            v: q.v0,
        },
        c1: Corner {
            at: center(g, i + 1, j),
            v: q.v1,
        },
        c2: Corner {
            at: center(g, i + 1, j + 1),
            v: q.v2,
        },
        c3: Corner {
            at: center(g, i, j + 1),
            v: q.v3,
        },
    }
}

fn nearer(mid: Vec2, c: Corner, n: Near) -> Near
    ensures { result ≡ nearer_of mid c n }
{
    let d = c.at.distance(mid);
    if d < n.distance {
        return Near {
            corner: c,
            distance: d,
        };
    }
    n
}

// The corner nearest to a point, the first of equally near ones.
fn nearest(cs: Corners, mid: Vec2) -> Corner
    ensures { result ≡ nearest_of cs mid }
{
    let c0 = cs.c0;
    let c1 = cs.c1;
    let c2 = cs.c2;
    let c3 = cs.c3;
    let n0 = Near {
        corner: c0,
        distance: f64::from_bits(0x7ff0_0000_0000_0000),
    };
    let n1 = nearer(mid, c0, n0);
    let n2 = nearer(mid, c1, n1);
    let n3 = nearer(mid, c2, n2);
    let n4 = nearer(mid, c3, n3);
    n4.corner
}

// Whether the segment from a to b has its high side on the left, by the corner that it cuts off.
fn turned(cs: Corners, level: f32, a: Vec2, b: Vec2) -> bool
    ensures { result ≡ turned_of cs level a b }
{
    let c = nearest(cs, a.lerp(b, 0.5));
    let left = b.sub(a).cross(c.at.sub(a)) > 0.0;
    left == (c.v > level)
}

// The segment, turned so that the higher field is on its right.
pub fn directed(g: Grid, f: &[f32], level: f32, q: Square, s: Segment) -> Segment
    requires over { Over g (length f.now) }
    requires in_grid { InGrid g q.i q.j }
    requires joins { Joins g s }
    ensures { result ≡ directed_of g f.now level q s }
{
    let a = s.from;
    let b = s.to;
    let pa = crossing(g, f, level, a);
    let pb = crossing(g, f, level, b);
    if turned(corners_of(g, q), level, pa, pb) {
        return Segment { from: b, to: a };
    }
    s
}
