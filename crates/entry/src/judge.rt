// The first no of questions 1 to 15, or the raster of the job.
ghost use Rattle.std.specs.Prelude.{◌≡◌, true, cond, ◌<◌, length};
ghost use Rattle.geom.specs.Region.{Held};
ghost use Rattle.raster.specs.Grid.{Sides};
ghost use Rattle.entry.specs.Regions.{pocket_of};
ghost use Rattle.entry.specs.Questions.{resolution_fit, ranges_fit, raster_of, job_grid, lent_fit, asked, first_no, last_three, judged_by, judged_of};

use super::params::{AdaptiveParams, cell_of};
use super::questions::{Question, ask, ask_of};
use super::shapes::shapes_fit;
use geom::region::Region;
use raster::grid::{Grid, Refusal};
use setup::layout::cells;

// How long the lent slices of the workspace are.
#[derive(Clone, Copy)]
pub struct Lengths {
    pub bytes: usize,
    pub words: usize,
    pub singles: usize,
    pub doubles: usize,
}

pub fn pocket_of(lens: &[u32], regions: &[u32]) -> Region
    requires { 0 < length regions.now }
    ensures { result ≡ pocket_of lens.now regions.now }
{
    Region {
        at: 0,
        first: 0,
        loops: regions[0] as usize,
    }
}

// For question 14: the raster over the pocket, with a margin of two cells.
fn raster_of(p: AdaptiveParams, vs: &[f64], lens: &[u32], regions: &[u32]) -> Result<Grid, Refusal>
    requires regions_nonzero { 0 < length regions.now }
    requires held { Held vs.now lens.now (pocket_of lens.now regions.now) }
    ensures { result ≡ raster_of p vs.now lens.now regions.now }
{
    let region = pocket_of(lens, regions);
    let c = geom::region::bounds(vs, lens, region);
    let lo = c.lo;
    let hi = c.hi;
    let cell = cell_of(p);
    raster::grid::new(lo, hi, cell, 2.0 * cell)
}

// Question 15: the closing list of document 01.
fn lent_fits(g: Grid, l: Lengths) -> bool
    requires { Sides g }
    ensures { result ≡ lent_fit g l }
{
    let n = cells(g);
    let most = 32 * n + 8192;
    ((8 * n <= l.bytes) & (most <= l.words)) & ((2 * n <= l.singles) & (most <= l.doubles))
}

// Questions 13 to 15. After 11 to 13 the raster is never unfit, only too large.
fn judge_shapes(
    p: AdaptiveParams,
    whole: bool,
    vs: &[f64],
    lens: &[u32],
    regions: &[u32],
    l: Lengths,
) -> Result<Grid, Question>
    requires p_value { resolution_fit p ≡ true }
    requires p_value_2 { ranges_fit p ≡ true }
    ensures { result ≡ judged_by (first_no (last_three p whole vs.now lens.now regions.now l)) (job_grid p vs.now lens.now regions.now) }
{
    ask(Question::Shapes, shapes_fit(whole, vs, lens, regions))?;
    match raster_of(p, vs, lens, regions) {
        Ok(g) => {
            ask(Question::Lent, lent_fits(g, l))?;
            Ok(g)
        }
        Err(_) => Err(Question::Raster),
    }
}

// The raster of the job, or the first question that is answered no. `whole`: there is no list of stock
// regions, the whole pocket is stock.
pub fn judge(
    p: AdaptiveParams,
    whole: bool,
    vs: &[f64],
    lens: &[u32],
    regions: &[u32],
    l: Lengths,
) -> Result<Grid, Question>
    ensures { result ≡ judged_of p whole vs.now lens.now regions.now l }
{
    ask_of(p)?;
    judge_shapes(p, whole, vs, lens, regions, l)
}
