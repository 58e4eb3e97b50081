// The planner under its C name. A setting goes in as whether it is given, and its number; the answer comes back as a
// refusal's number, or 0 and the report.
ghost use Rattle.std.specs.Prelude.{◌≡◌};
ghost use Rattle.report.specs.Zero.{lent};
ghost use Rattle.planner.specs.Planner.{job, outcome_of};
ghost use Rattle.planner.specs.Answered.{AnswerTold};
ghost use Rattle.pocket.specs.Plan.{setting_of, params_of, no_report, of_answer, told, told_of};

use entry::params::AdaptiveParams;
use planner::outcome::{Refusal, adaptive_clear};
use report::report::AdaptiveReport;

#[repr(C)]
#[derive(Clone, Copy)]
pub struct PocketSetting {
    pub given: bool,
    pub value: f64,
}

// `AdaptiveParams` as C has it.
#[repr(C)]
#[derive(Clone, Copy)]
pub struct PocketParams {
    pub tool_diameter: f64,
    pub max_engagement_deg: f64,
    pub step_down: f64,
    pub top: f64,
    pub bottom: f64,
    pub stock_to_leave: f64,
    pub safe_z: f64,
    pub feed: f64,
    pub plunge_feed: f64,
    pub link_feed: f64,
    pub helix_ramp_deg: f64,
    pub helix_radius: PocketSetting,
    pub chip_thinning_max: PocketSetting,
    pub resolution: PocketSetting,
    pub keep_tool_down: bool,
}

#[repr(C)]
#[derive(Clone, Copy)]
pub struct PocketAnswer {
    pub refused: u32,
    pub report: AdaptiveReport,
}

fn setting(s: PocketSetting) -> Option<f64>
    ensures { result ≡ setting_of s }
{
    if s.given {
        return Some(s.value);
    }
    None
}

fn params_of(p: PocketParams) -> AdaptiveParams
    ensures { result ≡ params_of p }
{
    let helix = p.helix_radius;
    let thinning = p.chip_thinning_max;
    let cell = p.resolution;
    AdaptiveParams {
        tool_diameter: p.tool_diameter,
        max_engagement_deg: p.max_engagement_deg,
        step_down: p.step_down,
        top: p.top,
        bottom: p.bottom,
        stock_to_leave: p.stock_to_leave,
        safe_z: p.safe_z,
        feed: p.feed,
        plunge_feed: p.plunge_feed,
        link_feed: p.link_feed,
        helix_ramp_deg: p.helix_ramp_deg,
        helix_radius: setting(helix),
        chip_thinning_max: setting(thinning),
        resolution: setting(cell),
        keep_tool_down: p.keep_tool_down,
    }
}

fn no_report() -> AdaptiveReport
    ensures { result ≡ no_report }
{
    AdaptiveReport {
        layers: 0,
        passes: 0,
        helix_entries: 0,
        retracts: 0,
        links: 0,
        planned_max_engagement_deg: 0.0,
        removed_area: 0.0,
        remaining_reachable_area: 0.0,
        unreachable_area: 0.0,
        starting_cells: 0,
        standing_cells: 0,
        helix_given_up: 0,
        spent_budget: false,
        left_reachable: false,
    }
}

fn of_answer(a: Result<AdaptiveReport, Refusal>) -> PocketAnswer
    ensures { result ≡ of_answer a }
{
    match a {
        Ok(report) => PocketAnswer { refused: 0, report },
        Err(refusal) => PocketAnswer {
            refused: refusal.into(),
            report: no_report(),
        },
    }
}

// Plans a job, whatever is lent.
#[unsafe(no_mangle)]
pub extern "C" fn pocket_adaptive_clear(
    p: PocketParams,
    whole: bool,
    vs: &[f64],
    lens: &[u32],
    regions: &[u32],
    b: &mut [u8],
    u: &mut [u32],
    f: &mut [f32],
    w: &mut [f64],
    rows: &mut [u32],
    triples: &mut [f64],
) -> PocketAnswer
    ensures result_after { told (lent b.new u.new f.new w.new rows.new triples.new) result ≡ told_of (outcome_of (job (params_of p) whole vs.now lens.now regions.now) (lent b.old u.old f.old w.old rows.old triples.old)) }
    ensures answer_told { AnswerTold (job (params_of p) whole vs.now lens.now regions.now) (lent b.old u.old f.old w.old rows.old triples.old) (lent b.new u.new f.new w.new rows.new triples.new) (outcome_of (job (params_of p) whole vs.now lens.now regions.now) (lent b.old u.old f.old w.old rows.old triples.old)).answer }
{
    let q = params_of(p);
    let a = adaptive_clear(q, whole, vs, lens, regions, b, u, f, w, rows, triples);
    of_answer(a)
}
