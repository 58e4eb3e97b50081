// The lattice that a way is sought on: every k-th cell of the raster, both ways.
ghost use Rattle.std.specs.Prelude.{◌≡◌, ◌*◌, ◌≤◌, ◌<◌, length, get_or};
ghost use Rattle.numbers.specs.Whole.{above};
ghost use Rattle.raster.specs.Grid.{Sides, Over};
ghost use Rattle.links.specs.Lattice.{spacing_of, along, centre_at, node_at, lattice_of, nodes, cell_of_node, centre_of, node_free};
ghost use Rattle.links.specs.Lattice.{beside_x, beside_y, on_lattice, beside_of, IsNode, Laid, bound_of};

use super::NodeNo;
use distance::limits::{Limit, Threshold};
use geom::vec2::Vec2;
use raster::grid::{CellNo, Grid};
use setup::Setup;

// `end` is the goal's centre. A free node is farther than `margin` from stock, in cells.
#[derive(Clone, Copy)]
pub struct Lattice {
    pub grid: Grid,
    pub k: usize,
    pub gx: usize,
    pub gy: usize,
    pub start: NodeNo,
    pub goal: NodeNo,
    pub end: Vec2,
    pub margin: f64,
}

fn spacing(r: f64, cell: f64) -> usize
    ensures { result ≡ spacing_of r cell }
{
    let n = numbers::whole::round((r / 16.0) / cell);
    numbers::cast::sat_u64(numbers::order::max(n, 1.0)) as usize
}

// The places of n cells, k apart. A large k is added to nothing.
fn across(n: usize, k: usize) -> usize
    requires n_nonzero { 0 < n }
    requires k_nonzero { 0 < k }
    ensures { result ≡ above n k }
{
    (n - 1) / k + 1
}

// The cell of place a.
fn cell_along(a: usize, k: usize, n: usize) -> usize
    requires k_bound { a * k < n }
    requires n_bound { n ≤ 4096 }
    ensures { result ≡ along a k n }
{
    let i = a * k + k / 2;
    if i < n - 1 {
        return i;
    }
    n - 1
}

fn centre_at(g: Grid, k: usize, gi: usize, gj: usize) -> Vec2
    requires sides { Sides g }
    requires k_bound { gi * k < g.nx }
    requires k_bound_2 { gj * k < g.ny }
    ensures { result ≡ centre_at g k gi gj }
{
    let i = cell_along(gi, k, g.nx);
    let j = cell_along(gj, k, g.ny);
    raster::grid::center(g, i, j)
}

fn node_at(gx: usize, gi: usize, gj: usize) -> NodeNo
    requires gi_bound { gi ≤ 4096 }
    requires gx_bound { gj * gx ≤ 1048576 }
    ensures { result ≡ node_at gx gi gj }
{
    NodeNo((gj * gx + gi) as u32)
}

// The lattice for a way from the cell (i, j) to the cell (p, q).
fn lattice_of(s: Setup, i: usize, j: usize, p: usize, q: usize) -> Lattice
    requires sides { Sides s.grid }
    requires i_lt_nx { i < s.grid.nx }
    requires j_lt_ny { j < s.grid.ny }
    requires p_lt_nx { p < s.grid.nx }
    requires q_lt_ny { q < s.grid.ny }
    ensures { result ≡ lattice_of s i j p q }
{
    let g = s.grid;
    let k = spacing(s.r, g.cell);
    let gx = across(g.nx, k);
    let gy = across(g.ny, k);
    let start = node_at(gx, i / k, j / k);
    let goal = node_at(gx, p / k, q / k);
    let end = centre_at(g, k, p / k, q / k);
    let margin = (s.r - g.cell) / g.cell;
    Lattice {
        grid: g,
        k,
        gx,
        gy,
        start,
        goal,
        end,
        margin,
    }
}

// A neighbour's column and row from its node's, one more each.
const BESIDE_X: [usize; 8] = [0, 2, 1, 1, 0, 2, 0, 2];

const BESIDE_Y: [usize; 8] = [1, 1, 0, 2, 0, 0, 2, 2];

fn step_x(d: usize) -> usize
    requires { d < 8 }
    ensures { result ≡ get_or beside_x d 0 }
{
    BESIDE_X[d]
}

fn step_y(d: usize) -> usize
    requires { d < 8 }
    ensures { result ≡ get_or beside_y d 0 }
{
    BESIDE_Y[d]
}

// A lattice that is laid over a raster, and what tells by its square whether a distance is above its margin.
#[derive(Clone, Copy)]
pub struct Net {
    pub lattice: Lattice,
    pub limit: Limit,
    ghost laid: { Laid lattice },
    ghost bound: { limit.threshold ≡ bound_of lattice.margin },
}

impl Net {
    // For a way from the cell (i, j) to the cell (p, q).
    pub fn of(s: Setup, i: usize, j: usize, p: usize, q: usize) -> Net
        requires sides { Sides s.grid }
        requires i_lt_nx { i < s.grid.nx }
        requires j_lt_ny { j < s.grid.ny }
        requires p_lt_nx { p < s.grid.nx }
        requires q_lt_ny { q < s.grid.ny }
        ensures { result.lattice ≡ lattice_of s i j p q }
    {
        let lattice = lattice_of(s, i, j, p, q);
        let limit = Limit::of(Threshold {
            scale: None,
            strict: false,
            x: lattice.margin,
        });
        Net { lattice, limit }
    }

    pub fn nodes(self) -> usize
        ensures { result ≡ nodes self.lattice }
    {
        self.lattice.gy * self.lattice.gx
    }

    pub fn cell_of_node(self, v: NodeNo) -> CellNo
        requires { IsNode self.lattice v }
        ensures { result ≡ cell_of_node self.lattice v }
    {
        let l = self.lattice;
        let g = l.grid;
        let a = usize::from(v);
        let i = cell_along(a % l.gx, l.k, g.nx);
        let j = cell_along(a / l.gx, l.k, g.ny);
        raster::grid::cell_no(g, i, j)
    }

    pub fn centre(self, v: NodeNo) -> Vec2
        requires { IsNode self.lattice v }
        ensures { result ≡ centre_of self.lattice v }
    {
        let l = self.lattice;
        let a = usize::from(v);
        centre_at(l.grid, l.k, a % l.gx, a / l.gx)
    }

    // The node's cell is allowed, and farther from stock than the margin.
    pub fn node_free(self, allowed: &[u8], squares: &[u32], v: NodeNo) -> bool
        requires node { IsNode self.lattice v }
        requires over { Over self.lattice.grid (length allowed.now) }
        requires over_2 { Over self.lattice.grid (length squares.now) }
        ensures { result ≡ node_free self.lattice allowed.now squares.now v }
    {
        let k = raster::grid::index_of(self.cell_of_node(v));
        if allowed[k] == 1 {
            return self.limit.beyond(squares[k]);
        }
        false
    }

    // The node at (a - 1, b - 1).
    fn on_lattice(self, a: usize, b: usize) -> Option<NodeNo>
        ensures { result ≡ on_lattice self.lattice a b }
    {
        let l = self.lattice;
        if a < 1 {
            return None;
        }
        if b < 1 {
            return None;
        }
        if l.gx < a {
            return None;
        }
        if l.gy < b {
            return None;
        }
        Some(node_at(l.gx, a - 1, b - 1))
    }

    // Neighbour d.
    pub fn beside(self, v: NodeNo, d: usize) -> Option<NodeNo>
        requires node { IsNode self.lattice v }
        requires d_bound { d < 8 }
        ensures { result ≡ beside_of self.lattice v d }
    {
        let i = usize::from(v);
        let a = i % self.lattice.gx + step_x(d);
        let b = i / self.lattice.gx + step_y(d);
        self.on_lattice(a, b)
    }
}
