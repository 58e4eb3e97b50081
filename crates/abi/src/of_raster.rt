// The functions of `raster`. A grid goes in as its corner, its cell and its sides; an answer of two
// numbers comes back as one, the second times 2^32.
ghost use Rattle.std.specs.Prelude.{◌≡◌, ◌+◌, ◌*◌, ◌≤◌, ◌<◌, length};
ghost use Rattle.loops.specs.Cells.{ones};
ghost use Rattle.geom.specs.Vec.{v2};
ghost use Rattle.raster.specs.Grid.{Over, new_grid, center_of, cell_of, stock_at};
ghost use Rattle.raster.specs.Disk.{disk_row};
ghost use Rattle.raster.specs.Stock.{cl, clear_disk, count_disk, intersection};
ghost use Rattle.raster.specs.Log.{st, Ready, Logged, clear_after, undone, redone};
ghost use Rattle.raster.specs.Contact.{samples_of, rim_contact, angle_of};
ghost use Rattle.filling.specs.Fill.{fill_region};
ghost use Rattle.geom.specs.Region.{Held};
ghost use Rattle.abi.specs.Geom.{region, put2};
ghost use Rattle.abi.specs.Raster.{grid, packed_grid, corner_put, packed_cell, packed_span};

use geom::region::Region;
use geom::vec2::Vec2;
use raster::disk::Cols;
use raster::grid::Grid;

// The grid over two corners: its sides, and its own corner written to `out`; or document 01's refusal.
#[unsafe(no_mangle)]
pub extern "C" fn raster_new(
    lx: f64,
    ly: f64,
    hx: f64,
    hy: f64,
    cell: f64,
    margin: f64,
    out: &mut [f64],
) -> u64
    requires { 2 ≤ length out.old }
    ensures value { result ≡ packed_grid (new_grid (v2 lx ly) (v2 hx hy) cell margin) }
    ensures out_after { out.new ≡ corner_put (new_grid (v2 lx ly) (v2 hx hy) cell margin) out.old }
{
    let lo = Vec2 { x: lx, y: ly };
    let hi = Vec2 { x: hx, y: hy };
    match raster::grid::new(lo, hi, cell, margin) {
        Ok(g) => {
            super::of_geom::put(g.origin, out);
            sides(g.nx, g.ny)
        }
        Err(refusal) => u64::from(u32::from(refusal)),
    }
}

fn sides(nx: usize, ny: usize) -> u64
    requires nx_bound { nx ≤ 4096 }
    requires ny_bound { ny ≤ 4096 }
    ensures { result ≡ ny * 0x1_0000_0000 + nx }
{
    (ny as u64) * 0x1_0000_0000 + (nx as u64)
}

// The cell at a point, or u64::MAX.
#[unsafe(no_mangle)]
pub extern "C" fn raster_cell_of(
    ox: f64,
    oy: f64,
    cell: f64,
    nx: usize,
    ny: usize,
    x: f64,
    y: f64,
) -> u64
    requires nx_bound { nx ≤ 4096 }
    requires ny_bound { ny ≤ 4096 }
    ensures { result ≡ packed_cell (cell_of (grid ox oy cell nx ny) (v2 x y)) }
{
    let origin = Vec2 { x: ox, y: oy };
    let f = raster::grid::cell_of(
        Grid {
            origin,
            cell,
            nx,
            ny,
        },
        Vec2 { x, y },
    );
    match f {
        None => 0xffff_ffff_ffff_ffff,
        Some((i, j)) => pack(i, j),
    }
}

fn pack(i: usize, j: usize) -> u64
    requires i_bound { i < 4096 }
    requires j_bound { j < 4096 }
    ensures { result ≡ j * 0x1_0000_0000 + i }
{
    (j as u64) * 0x1_0000_0000 + (i as u64)
}

// The columns of a row in a disk, or u64::MAX.
#[unsafe(no_mangle)]
pub extern "C" fn raster_disk_row(
    ox: f64,
    oy: f64,
    cell: f64,
    nx: usize,
    ny: usize,
    x: f64,
    y: f64,
    r: f64,
    j: usize,
) -> u64
    ensures { result ≡ packed_span (disk_row (grid ox oy cell nx ny) (v2 x y) r j) }
{
    let origin = Vec2 { x: ox, y: oy };
    let g = Grid {
        origin,
        cell,
        nx,
        ny,
    };
    pack_span(raster::disk::chord(g, Vec2 { x, y }, r * r, j))
}

fn pack_span(s: Option<Cols>) -> u64
    ensures { result ≡ packed_span s }
{
    match s {
        None => 0xffff_ffff_ffff_ffff,
        Some((a, b)) => ((b % 0x1_0000) as u64) * 0x1_0000_0000 + ((a % 0x1_0000) as u64),
    }
}

#[unsafe(no_mangle)]
pub extern "C" fn raster_center(ox: f64, oy: f64, cell: f64, i: usize, j: usize, out: &mut [f64])
    requires { 2 ≤ length out.old }
    ensures { out.new ≡ put2 (center_of (grid ox oy cell 1 1) i j) out.old }
{
    let origin = Vec2 { x: ox, y: oy };
    let g = Grid {
        origin,
        cell,
        nx: 1,
        ny: 1,
    };
    super::of_geom::put(raster::grid::center(g, i, j), out);
}

#[unsafe(no_mangle)]
pub extern "C" fn raster_at(
    ox: f64,
    oy: f64,
    cell: f64,
    nx: usize,
    ny: usize,
    map: &[u8],
    x: f64,
    y: f64,
) -> bool
    requires { Over (grid ox oy cell nx ny) (length map.now) }
    ensures { result ≡ stock_at (grid ox oy cell nx ny) map.now (v2 x y) }
{
    let origin = Vec2 { x: ox, y: oy };
    let g = Grid {
        origin,
        cell,
        nx,
        ny,
    };
    raster::grid::at(g, map, Vec2 { x, y })
}

#[unsafe(no_mangle)]
pub extern "C" fn raster_count(map: &[u8]) -> usize
    ensures { result ≡ ones map.now }
{
    raster::stock::count(map)
}

#[unsafe(no_mangle)]
pub extern "C" fn raster_intersect(map: &mut [u8], other: &[u8])
    requires { length map.old ≤ length other.now }
    ensures { map.new ≡ intersection map.old other.now }
{
    raster::stock::intersect(map, other);
}

#[unsafe(no_mangle)]
pub extern "C" fn raster_clear_disk(
    ox: f64,
    oy: f64,
    cell: f64,
    nx: usize,
    ny: usize,
    map: &mut [u8],
    x: f64,
    y: f64,
    r: f64,
) -> usize
    requires { Over (grid ox oy cell nx ny) (length map.old) }
    ensures { cl map.new result ≡ clear_disk (grid ox oy cell nx ny) (v2 x y) r map.old }
{
    let origin = Vec2 { x: ox, y: oy };
    let g = Grid {
        origin,
        cell,
        nx,
        ny,
    };
    raster::clear::clear_disk(g, map, Vec2 { x, y }, r)
}

#[unsafe(no_mangle)]
pub extern "C" fn raster_count_disk(
    ox: f64,
    oy: f64,
    cell: f64,
    nx: usize,
    ny: usize,
    map: &[u8],
    x: f64,
    y: f64,
    r: f64,
) -> usize
    requires { Over (grid ox oy cell nx ny) (length map.now) }
    ensures { result ≡ count_disk (grid ox oy cell nx ny) (v2 x y) r map.now }
{
    let origin = Vec2 { x: ox, y: oy };
    let g = Grid {
        origin,
        cell,
        nx,
        ny,
    };
    raster::stock::count_disk(g, map, Vec2 { x, y }, r)
}

// The same count by its plain form.
#[unsafe(no_mangle)]
pub extern "C" fn plain_count_disk(
    ox: f64,
    oy: f64,
    cell: f64,
    nx: usize,
    ny: usize,
    map: &[u8],
    x: f64,
    y: f64,
    r: f64,
) -> usize
    requires { Over (grid ox oy cell nx ny) (length map.now) }
    ensures { result ≡ count_disk (grid ox oy cell nx ny) (v2 x y) r map.now }
{
    let origin = Vec2 { x: ox, y: oy };
    let g = Grid {
        origin,
        cell,
        nx,
        ny,
    };
    plain::count_disk(g, map, Vec2 { x, y }, r)
}

#[unsafe(no_mangle)]
pub extern "C" fn raster_clear_disk_after_logged(
    ox: f64,
    oy: f64,
    cell: f64,
    nx: usize,
    ny: usize,
    map: &mut [u8],
    px: f64,
    py: f64,
    x: f64,
    y: f64,
    r: f64,
    log: &mut [u32],
    count: usize,
) -> usize
    requires over { Over (grid ox oy cell nx ny) (length map.old) }
    requires ready { Ready (st map.old log.old count) }
    ensures { st map.new log.new result ≡ clear_after (grid ox oy cell nx ny) (v2 px py) (v2 x y) r (st map.old log.old count) }
{
    let origin = Vec2 { x: ox, y: oy };
    let g = Grid {
        origin,
        cell,
        nx,
        ny,
    };
    let prev = Vec2 { x: px, y: py };
    raster::log::clear_disk_after_logged(g, map, prev, Vec2 { x, y }, r, log, count)
}

#[unsafe(no_mangle)]
pub extern "C" fn raster_undo(map: &mut [u8], log: &[u32], count: usize)
    requires { Logged log.now count (length map.old) }
    ensures { map.new ≡ undone log.now 0 count map.old }
{
    raster::log::undo(map, &log[..count]);
}

#[unsafe(no_mangle)]
pub extern "C" fn raster_clear_again(map: &mut [u8], log: &[u32], count: usize)
    requires { Logged log.now count (length map.old) }
    ensures { map.new ≡ redone log.now 0 count map.old }
{
    raster::log::clear_again(map, &log[..count]);
}

// The angle of a contact. The table of directions is filled first.
#[unsafe(no_mangle)]
pub extern "C" fn raster_engagement(
    ox: f64,
    oy: f64,
    cell: f64,
    nx: usize,
    ny: usize,
    map: &[u8],
    x: f64,
    y: f64,
    r: f64,
    samples: usize,
    rim: &mut [f64],
) -> f64
    requires over { Over (grid ox oy cell nx ny) (length map.now) }
    requires samples_in_bounds { 2 * samples_of samples ≤ length rim.old }
    ensures { result ≡ angle_of (rim_contact (grid ox oy cell nx ny) map.now (v2 x y) r samples) }
{
    let origin = Vec2 { x: ox, y: oy };
    let g = Grid {
        origin,
        cell,
        nx,
        ny,
    };
    raster::contact::fill_rim(rim, raster::contact::samples_of(samples));
    let t = raster::contact::rim_contact(g, map, Vec2 { x, y }, r, rim, samples);
    raster::contact::angle_of(t)
}

#[unsafe(no_mangle)]
pub extern "C" fn raster_fill_region(
    ox: f64,
    oy: f64,
    cell: f64,
    nx: usize,
    ny: usize,
    map: &mut [u8],
    vs: &[f64],
    lens: &[u32],
    at: usize,
    first: usize,
    loops: usize,
)
    requires over { Over (grid ox oy cell nx ny) (length map.old) }
    requires held { Held vs.now lens.now (region at first loops) }
    ensures { map.new ≡ fill_region (grid ox oy cell nx ny) vs.now lens.now (region at first loops) map.old }
{
    let origin = Vec2 { x: ox, y: oy };
    let g = Grid {
        origin,
        cell,
        nx,
        ny,
    };
    let mut xs = [0.0; 4096];
    filling::region::fill_region(g, map, vs, lens, Region { at, first, loops }, &mut xs);
}
