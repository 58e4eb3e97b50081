// The report.
ghost use Rattle.std.specs.Prelude.{◌≡◌, ◌*◌, ◌≤◌, length};
ghost use Rattle.raster.specs.Grid.{Sides};
ghost use Rattle.setup.specs.Layout.{map_in};
ghost use Rattle.workspace.specs.Standing.{reach_in};
ghost use Rattle.report.specs.Report.{layers_of, report_of};

use super::kinds::count_kinds;
use super::standing::remaining;
use cutting::piece::State;
use numbers::cast::float_of;
use numbers::order::max;
use raster::grid::Grid;
use setup::layout;

// `AdaptiveReport` of the Rust without its texts. The last five fields are document 01's.
#[repr(C)]
#[derive(Clone, Copy)]
pub struct AdaptiveReport {
    pub layers: usize,
    pub passes: usize,
    pub helix_entries: usize,
    pub retracts: usize,
    pub links: usize,
    pub planned_max_engagement_deg: f64,
    pub removed_area: f64,
    pub remaining_reachable_area: f64,
    pub unreachable_area: f64,
    pub starting_cells: usize,
    pub standing_cells: usize,
    pub helix_given_up: usize,
    pub spent_budget: bool,
    pub left_reachable: bool,
}

// What the report takes from the job and from the plan's rounds: the depth to be cleared, the stock cells
// at the start, the helix places given up, and whether the budget was spent.
#[derive(Clone, Copy)]
pub struct Finish {
    pub top: f64,
    pub bottom: f64,
    pub step_down: f64,
    pub starting: usize,
    pub given_up: usize,
    pub spent: bool,
}

fn layers(top: f64, bottom: f64, step_down: f64) -> usize
    ensures { result ≡ layers_of top bottom step_down }
{
    let depth = top - bottom;
    let up = numbers::whole::ceil(depth / step_down - 1e-9);
    numbers::cast::sat_u64(max(up, 1.0)) as usize
}

// The map and the cells that could be reached stand in the workspace's bytes.
pub fn report_of(
    g: Grid,
    f: Finish,
    t: State,
    b: &[u8],
    rows: &[u32],
    triples: &[f64],
) -> AdaptiveReport
    requires sides { Sides g }
    requires g_in_bounds { 8 * (g.ny * g.nx) ≤ length b.now }
    requires rows_in_bounds { t.rows * 3 ≤ length rows.now }
    ensures { result ≡ report_of g.cell f t (map_in (g.ny * g.nx) b.now) (reach_in (g.ny * g.nx) b.now) rows.now triples.now }
{
    let n = layout::cells(g);
    let a = layout::reach(n);
    let e = a + n;
    let left = remaining(&b[0..n], &b[a..e]);
    let standing = raster::stock::count(&b[0..n]);
    let count = count_kinds(rows, triples, t.rows);
    let area = g.cell * g.cell;
    let initial = float_of(f.starting) * area;
    let reachable = float_of(left.reach) * area;
    let unreachable = float_of(left.unreach) * area;
    AdaptiveReport {
        layers: layers(f.top, f.bottom, f.step_down),
        passes: count.passes,
        helix_entries: count.helices,
        retracts: count.plunges,
        links: count.links,
        planned_max_engagement_deg: numbers::circle::to_degrees(t.planned_max),
        removed_area: max(initial - reachable - unreachable, 0.0),
        remaining_reachable_area: reachable,
        unreachable_area: unreachable,
        starting_cells: f.starting,
        standing_cells: standing,
        helix_given_up: f.given_up,
        spent_budget: f.spent,
        left_reachable: reachable > 0.05 * max(initial, 1e-9),
    }
}
