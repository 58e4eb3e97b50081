// The stock that planning starts with: the pocket, or what the stock regions share with it.
ghost use Rattle.std.specs.Prelude.{◌≡◌, ◌+◌, ◌*◌, ◌^◌, ◌≤◌, ◌<◌, length, replicate};
ghost use Rattle.geom.specs.Region.{Held, start_of};
ghost use Rattle.distance.specs.Nearest.{listed};
ghost use Rattle.raster.specs.Grid.{Sides, Over};
ghost use Rattle.filling.specs.Fill.{fill_region};
ghost use Rattle.setup.specs.Layout.{most, put_run, map_put};
ghost use Rattle.workspace.specs.Standing.{abandoned_in, abandoned_put};
ghost use Rattle.entry.specs.Regions.{pocket_of, AllHeld};
ghost use Rattle.start.specs.Start.{add_regions};
ghost use Rattle.start.specs.Steps.{inside_in, stock_byte, stock_at, Filled, Stocked};

use filling::region::fill_region;
use geom::region::{Region, size, sizes};
use raster::grid::Grid;
use setup::layout;

// Where the vertices of a region end.
fn end_of(lens: &[u32], r: Region) -> usize
    requires loops_in_bounds { r.first + r.loops ≤ length lens.now }
    requires loops_bound { start_of lens.now r r.loops < 2 ^ 63 }
    ensures { result ≡ start_of lens.now r r.loops }
{
    let mut at = r.at;
    for n in sizes(lens, r) {
        at += *n as usize;
    }
    at
}

// Sets the cells of the regions after the pocket, one region after another.
fn add_regions(
    g: Grid,
    vs: &[f64],
    lens: &[u32],
    regions: &[u32],
    pocket: Region,
    map: &mut [u8],
    xs: &mut [f64],
)
    requires over { Over g (length map.old) }
    requires all_held { AllHeld vs.now lens.now regions.now }
    requires pocket_value { pocket ≡ pocket_of lens.now regions.now }
    requires in_bounds { 4096 ≤ length xs.old }
    ensures { map.new ≡ add_regions g vs.now lens.now regions.now map.old }
{
    let mut first = pocket.loops;
    let mut at = end_of(lens, pocket);
    for k in 1..regions.len() {
        let loops = size(regions, k);
        let region = Region { at, first, loops };
        fill_region(g, map, vs, lens, region, xs);
        at = end_of(lens, region);
        first += loops;
    }
}

// The pocket, into the bytes of what is inside.
fn fill_inside(g: Grid, vs: &[f64], lens: &[u32], pocket: Region, b: &mut [u8], w: &mut [f64])
    requires sides { Sides g }
    requires held { Held vs.now lens.now pocket }
    requires nx_in_bounds { 8 * (g.ny * g.nx) ≤ length b.old }
    requires nx_in_bounds_2 { 32 * (g.ny * g.nx) + 8192 ≤ length w.old }
    ensures { b.new ≡ put_run 5 (g.ny * g.nx) (fill_region g vs.now lens.now pocket (inside_in (g.ny * g.nx) b.old)) b.old }
{
    let n = layout::cells(g);
    let a = layout::inside(n);
    let e = a + n;
    let x = layout::columns(n);
    let y = x + 4096;
    fill_region(g, &mut b[a..e], vs, lens, pocket, &mut w[x..y]);
}

// The stock regions, into the bytes of the cells that are given up.
fn fill_stock(
    g: Grid,
    vs: &[f64],
    lens: &[u32],
    regions: &[u32],
    pocket: Region,
    b: &mut [u8],
    w: &mut [f64],
)
    requires sides { Sides g }
    requires all_held { AllHeld vs.now lens.now regions.now }
    requires pocket_value { pocket ≡ pocket_of lens.now regions.now }
    requires nx_in_bounds { 8 * (g.ny * g.nx) ≤ length b.old }
    requires nx_in_bounds_2 { 32 * (g.ny * g.nx) + 8192 ≤ length w.old }
    ensures { b.new ≡ abandoned_put (g.ny * g.nx) (add_regions g vs.now lens.now regions.now (abandoned_in (g.ny * g.nx) b.old)) b.old }
{
    let n = layout::cells(g);
    let a = layout::abandoned(n);
    let e = a + n;
    let x = layout::columns(n);
    let y = x + 4096;
    add_regions(g, vs, lens, regions, pocket, &mut b[a..e], &mut w[x..y]);
}

// The pocket and, where there is a list of them, the stock regions, over zeros.
fn fill_regions(
    g: Grid,
    whole: bool,
    vs: &[f64],
    lens: &[u32],
    regions: &[u32],
    pocket: Region,
    b: &mut [u8],
    w: &mut [f64],
)
    requires sides { Sides g }
    requires all_held { AllHeld vs.now lens.now regions.now }
    requires pocket_value { pocket ≡ pocket_of lens.now regions.now }
    requires nx_in_bounds { 8 * (g.ny * g.nx) ≤ length b.old }
    requires nx_in_bounds_2 { 32 * (g.ny * g.nx) + 8192 ≤ length w.old }
    ensures { Filled g whole vs.now lens.now regions.now b.new }
{
    b.fill(0);
    fill_inside(g, vs, lens, pocket, b, w);
    if whole {
        return;
    }
    fill_stock(g, vs, lens, regions, pocket, b, w);
}

// A cell's byte: as inside, where the whole pocket is stock or a stock region has it.
fn stock_byte(whole: bool, inside: u8, stock: u8) -> u8
    ensures { result ≡ stock_byte whole inside stock }
{
    if whole {
        return inside;
    }
    if stock != 1 {
        return 0;
    }
    inside
}

// The stock map, from what is inside and the stock regions' cells.
fn fill_map(n: usize, whole: bool, b: &mut [u8])
    requires n_le_most { n ≤ most }
    requires n_in_bounds { 8 * n ≤ length b.old }
    ensures { b.new ≡ map_put n (listed n (stock_at whole (inside_in n b.old) (abandoned_in n b.old))) b.old }
{
    let i = layout::inside(n);
    let a = layout::abandoned(n);
    for k in 0..n {
        b[k] = stock_byte(whole, b[i + k], b[a + k]);
    }
}

// No cell is given up.
fn clear_abandoned(n: usize, b: &mut [u8])
    requires n_le_most { n ≤ most }
    requires n_in_bounds { 8 * n ≤ length b.old }
    ensures { b.new ≡ abandoned_put n (replicate n 0) b.old }
{
    let a = layout::abandoned(n);
    let e = a + n;
    b[a..e].fill(0);
}

pub fn stock(
    g: Grid,
    whole: bool,
    vs: &[f64],
    lens: &[u32],
    regions: &[u32],
    pocket: Region,
    b: &mut [u8],
    w: &mut [f64],
)
    requires sides { Sides g }
    requires all_held { AllHeld vs.now lens.now regions.now }
    requires pocket_value { pocket ≡ pocket_of lens.now regions.now }
    requires nx_in_bounds { 8 * (g.ny * g.nx) ≤ length b.old }
    requires nx_in_bounds_2 { 32 * (g.ny * g.nx) + 8192 ≤ length w.old }
    ensures { Stocked g whole vs.now lens.now regions.now b.new }
{
    let n = layout::cells(g);
    fill_regions(g, whole, vs, lens, regions, pocket, b, w);
    fill_map(n, whole, b);
    clear_abandoned(n, b);
}
