// What a station links (c/pocket.h): each function of `pocket` under its C name. A crate is a library or a static library, so
// the exports stand here, over the library and with its clauses.
#![tactic(auto)]

ghost use Rattle.std.specs.Prelude.{◌≡◌};
ghost use Rattle.report.specs.Zero.{lent};
ghost use Rattle.distance.specs.Least.{Transformed};
ghost use Rattle.planner.specs.Planner.{job, outcome_of};
ghost use Rattle.planner.specs.Answered.{AnswerTold};
ghost use Rattle.pocket.specs.Plan.{params_of, told, told_of};
ghost use Rattle.pocket.specs.Answers.{of_cell, of_count, of_done, of_number, of_rim, of_single};
ghost use Rattle.pocket.specs.Leaves.{
  on_map,
  told_map,
  on_log,
  told_log,
  on_far,
  told_far,
  clear_disk_of,
  count_disk_of,
  standing_of,
  clear_crescent_of,
  undo_of,
  clear_again_of,
  cell_at_of,
  fill_of,
  contact_of,
  contact_angle_of,
  distance_map_of,
  sqrt_of,
  narrowed_of,
  sine_of,
  cosine_of,
  wanted_cells_of,
};

use geom::vec2::Vec2;
use pocket::adaptive::{PocketAnswer, PocketParams};
use pocket::answers::{PocketCell, PocketCount, PocketNumber, PocketRim, PocketSingle};
use raster::grid::Grid;

#[unsafe(no_mangle)]
pub extern "C" fn pocket_adaptive_clear(
    p: PocketParams,
    whole: bool,
    vs: &[f64],
    lens: &[u32],
    regions: &[u32],
    b: &mut [u8],
    u: &mut [u32],
    f: &mut [f32],
    w: &mut [f64],
    rows: &mut [u32],
    triples: &mut [f64],
) -> PocketAnswer
    ensures result_after { told (lent b.new u.new f.new w.new rows.new triples.new) result ≡ told_of (outcome_of (job (params_of p) whole vs.now lens.now regions.now) (lent b.old u.old f.old w.old rows.old triples.old)) }
    ensures answer_told { AnswerTold (job (params_of p) whole vs.now lens.now regions.now) (lent b.old u.old f.old w.old rows.old triples.old) (lent b.new u.new f.new w.new rows.new triples.new) (outcome_of (job (params_of p) whole vs.now lens.now regions.now) (lent b.old u.old f.old w.old rows.old triples.old)).answer }
{
    pocket::adaptive::pocket_adaptive_clear(p, whole, vs, lens, regions, b, u, f, w, rows, triples)
}

#[unsafe(no_mangle)]
pub extern "C" fn pocket_distance_map(
    nx: usize,
    ny: usize,
    marks: &[u8],
    mark: u8,
    squares: &mut [u32],
    distances: &mut [f64],
) -> u32
    ensures distances_after { on_far result squares.new distances.new ≡ told_far of_done (distance_map_of nx ny marks.now mark squares.old distances.old) }
    ensures transformed { result ≡ 0 → Transformed mark marks.now nx ny squares.old squares.new }
{
    pocket::far::pocket_distance_map(nx, ny, marks, mark, squares, distances)
}

#[unsafe(no_mangle)]
pub extern "C" fn pocket_clear_crescent(
    grid: Grid,
    map: &mut [u8],
    before: Vec2,
    center: Vec2,
    radius: f64,
    log: &mut [u32],
    used: usize,
) -> PocketCount
    ensures { on_log result map.new log.new ≡ told_log of_count (clear_crescent_of grid before center radius used map.old log.old) }
{
    pocket::logs::pocket_clear_crescent(grid, map, before, center, radius, log, used)
}

#[unsafe(no_mangle)]
pub extern "C" fn pocket_undo(nx: usize, ny: usize, map: &mut [u8], log: &[u32], used: usize) -> u32
    ensures { on_map result map.new ≡ told_map of_done (undo_of nx ny log.now used map.old) }
{
    pocket::logs::pocket_undo(nx, ny, map, log, used)
}

#[unsafe(no_mangle)]
pub extern "C" fn pocket_clear_again(
    nx: usize,
    ny: usize,
    map: &mut [u8],
    log: &[u32],
    used: usize,
) -> u32
    ensures { on_map result map.new ≡ told_map of_done (clear_again_of nx ny log.now used map.old) }
{
    pocket::logs::pocket_clear_again(nx, ny, map, log, used)
}

#[unsafe(no_mangle)]
pub extern "C" fn pocket_clear_disk(
    grid: Grid,
    map: &mut [u8],
    center: Vec2,
    radius: f64,
) -> PocketCount
    ensures { on_map result map.new ≡ told_map of_count (clear_disk_of grid center radius map.old) }
{
    pocket::maps::pocket_clear_disk(grid, map, center, radius)
}

#[unsafe(no_mangle)]
pub extern "C" fn pocket_count_disk(
    grid: Grid,
    map: &[u8],
    center: Vec2,
    radius: f64,
) -> PocketCount
    ensures { result ≡ of_count (count_disk_of grid center radius map.now) }
{
    pocket::maps::pocket_count_disk(grid, map, center, radius)
}

#[unsafe(no_mangle)]
pub extern "C" fn pocket_standing(nx: usize, ny: usize, map: &[u8]) -> PocketCount
    ensures { result ≡ of_count (standing_of nx ny map.now) }
{
    pocket::maps::pocket_standing(nx, ny, map)
}

#[unsafe(no_mangle)]
pub extern "C" fn pocket_cell_of(grid: Grid, point: Vec2) -> PocketCell
    ensures { result ≡ of_cell (cell_at_of grid point) }
{
    pocket::places::pocket_cell_of(grid, point)
}

#[unsafe(no_mangle)]
pub extern "C" fn pocket_fill_region(
    grid: Grid,
    map: &mut [u8],
    vertices: &[f64],
    lengths: &[u32],
) -> u32
    ensures { on_map result map.new ≡ told_map of_done (fill_of grid vertices.now lengths.now map.old) }
{
    pocket::places::pocket_fill_region(grid, map, vertices, lengths)
}

#[unsafe(no_mangle)]
pub extern "C" fn pocket_contact(
    grid: Grid,
    map: &[u8],
    center: Vec2,
    radius: f64,
    samples: usize,
) -> PocketRim
    ensures { result ≡ of_rim (contact_of grid map.now center radius samples) }
{
    pocket::rim::pocket_contact(grid, map, center, radius, samples)
}

#[unsafe(no_mangle)]
pub extern "C" fn pocket_contact_angle(hits: usize, samples: usize) -> PocketNumber
    ensures { result ≡ of_number (contact_angle_of hits samples) }
{
    pocket::rim::pocket_contact_angle(hits, samples)
}

#[unsafe(no_mangle)]
pub extern "C" fn pocket_sqrt(x: f64) -> PocketNumber
    ensures { result ≡ of_number (sqrt_of x) }
{
    pocket::values::pocket_sqrt(x)
}

#[unsafe(no_mangle)]
pub extern "C" fn pocket_narrow(x: f64) -> PocketSingle
    ensures { result ≡ of_single (narrowed_of x) }
{
    pocket::values::pocket_narrow(x)
}

#[unsafe(no_mangle)]
pub extern "C" fn pocket_sin(angle: f64) -> PocketNumber
    ensures { result ≡ of_number (sine_of angle) }
{
    pocket::values::pocket_sin(angle)
}

#[unsafe(no_mangle)]
pub extern "C" fn pocket_cos(angle: f64) -> PocketNumber
    ensures { result ≡ of_number (cosine_of angle) }
{
    pocket::values::pocket_cos(angle)
}

#[unsafe(no_mangle)]
pub extern "C" fn pocket_wanted(length: f64, cell: f64) -> PocketCount
    ensures { result ≡ of_count (wanted_cells_of length cell) }
{
    pocket::values::pocket_wanted(length, cell)
}
