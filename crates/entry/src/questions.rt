// Questions 1 to 12 of document 01, on the parameters. Whether the answer is yes.
ghost use Rattle.std.specs.Prelude.{◌≡◌};
ghost use Rattle.entry.specs.Questions.{above_zero, one_or_more, fine_for, absent_or, diameter_fit, engagement_fit, step_down_fit, depth_fit, leave_fit, safe_fit, feeds_fit, ramp_fit, helix_fit, at_most1000, thinning_fit, resolution_fit, ranges_fit, number_of, asked, first_no, first_twelve, judged_by};

use super::params::{AdaptiveParams, cell_of};
use numbers::order::is_finite;

// Document 01's questions, in its order, by what each asks about.
#[derive(Clone, Copy)]
pub enum Question {
    Diameter = 1,
    Engagement = 2,
    StepDown = 3,
    Depth = 4,
    Leave = 5,
    Safe = 6,
    Feeds = 7,
    Ramp = 8,
    Helix = 9,
    Thinning = 10,
    Resolution = 11,
    Ranges = 12,
    Shapes = 13,
    Raster = 14,
    Lent = 15,
}

impl Question {
    // Its number in document 01.
    pub fn number(self) -> u32
        ensures { result ≡ number_of self }
    {
        self as u32
    }
}

// A no is the answer.
pub fn ask(question: Question, fit: bool) -> Result<(), Question>
    ensures { result ≡ asked question fit }
{
    if fit { Ok(()) } else { Err(question) }
}

fn above_zero(x: f64) -> bool
    ensures { result ≡ above_zero x }
{
    is_finite(x) & (0.0 < x)
}

fn one_or_more(x: f64) -> bool
    ensures { result ≡ one_or_more x }
{
    is_finite(x) & (1.0 <= x)
}

fn fine_for(d: f64, x: f64) -> bool
    ensures { result ≡ fine_for d x }
{
    above_zero(x) & (x <= d / 60.0 + 1e-12)
}

fn diameter_fits(p: AdaptiveParams) -> bool
    ensures { result ≡ diameter_fit p }
{
    above_zero(p.tool_diameter)
}

fn engagement_fits(p: AdaptiveParams) -> bool
    ensures { result ≡ engagement_fit p }
{
    let e = p.max_engagement_deg;
    is_finite(e) & ((1.0 <= e) & (e < 180.0))
}

fn step_down_fits(p: AdaptiveParams) -> bool
    ensures { result ≡ step_down_fit p }
{
    above_zero(p.step_down)
}

fn depth_fits(p: AdaptiveParams) -> bool
    ensures { result ≡ depth_fit p }
{
    is_finite(p.top) & (is_finite(p.bottom) & (p.bottom < p.top))
}

fn leave_fits(p: AdaptiveParams) -> bool
    ensures { result ≡ leave_fit p }
{
    is_finite(p.stock_to_leave) & (0.0 <= p.stock_to_leave)
}

fn safe_fits(p: AdaptiveParams) -> bool
    ensures { result ≡ safe_fit p }
{
    is_finite(p.safe_z) & (p.top < p.safe_z)
}

fn feeds_fit(p: AdaptiveParams) -> bool
    ensures { result ≡ feeds_fit p }
{
    above_zero(p.feed) & (above_zero(p.plunge_feed) & above_zero(p.link_feed))
}

fn ramp_fits(p: AdaptiveParams) -> bool
    ensures { result ≡ ramp_fit p }
{
    above_zero(p.helix_ramp_deg) & (p.helix_ramp_deg <= 45.0)
}

fn helix_fits(p: AdaptiveParams) -> bool
    ensures { result ≡ helix_fit p }
{
    p.helix_radius.is_none_or(above_zero)
}

fn thinning_fits(p: AdaptiveParams) -> bool
    ensures { result ≡ thinning_fit p }
{
    p.chip_thinning_max.is_none_or(one_or_more)
}

fn resolution_fits(p: AdaptiveParams) -> bool
    ensures { result ≡ resolution_fit p }
{
    p.resolution.is_none_or(|x| fine_for(p.tool_diameter, x))
}

fn is_short(h: Option<f64>) -> bool
    ensures { result ≡ absent_or at_most1000 h }
{
    h.is_none_or(|x| x <= 1000.0)
}

fn ranges_fit(p: AdaptiveParams) -> bool
    ensures { result ≡ ranges_fit p }
{
    let d = p.tool_diameter;
    let h = p.helix_radius;
    let deep = (p.top - p.bottom) / p.step_down <= 10000.0;
    let rest = (p.stock_to_leave <= 100.0) & (is_short(h) & deep);
    ((0.1 <= d) & (d <= 100.0)) & ((d / 1000.0 <= cell_of(p)) & rest)
}

// Questions 1 to 12: the first no.
pub fn ask_of(p: AdaptiveParams) -> Result<(), Question>
    ensures { result ≡ judged_by (first_no (first_twelve p)) tt }
{
    ask(Question::Diameter, diameter_fits(p))?;
    ask(Question::Engagement, engagement_fits(p))?;
    ask(Question::StepDown, step_down_fits(p))?;
    ask(Question::Depth, depth_fits(p))?;
    ask(Question::Leave, leave_fits(p))?;
    ask(Question::Safe, safe_fits(p))?;
    ask(Question::Feeds, feeds_fit(p))?;
    ask(Question::Ramp, ramp_fits(p))?;
    ask(Question::Helix, helix_fits(p))?;
    ask(Question::Thinning, thinning_fits(p))?;
    ask(Question::Resolution, resolution_fits(p))?;
    ask(Question::Ranges, ranges_fit(p))
}
