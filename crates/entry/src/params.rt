// The parameters of a job (`AdaptiveParams` of the Rust).
ghost use Rattle.std.specs.Prelude.{◌≡◌};
ghost use Rattle.entry.specs.Questions.{cell_of, helix_of};

// Lengths are mm, angles degrees, feeds mm a minute; three settings may be left out.
#[derive(Clone, Copy)]
pub struct AdaptiveParams {
    pub tool_diameter: f64,
    pub max_engagement_deg: f64,
    pub step_down: f64,
    pub top: f64,
    pub bottom: f64,
    pub stock_to_leave: f64,
    pub safe_z: f64,
    pub feed: f64,
    pub plunge_feed: f64,
    pub link_feed: f64,
    pub helix_ramp_deg: f64,
    pub helix_radius: Option<f64>,
    pub chip_thinning_max: Option<f64>,
    pub resolution: Option<f64>,
    pub keep_tool_down: bool,
}

// The side of a cell: the resolution, else an eightieth of the diameter.
pub fn cell_of(p: AdaptiveParams) -> f64
    ensures { result ≡ cell_of p }
{
    p.resolution.unwrap_or(p.tool_diameter / 80.0)
}

// The radius of a helix that is tried first.
pub fn helix_of(p: AdaptiveParams) -> f64
    ensures { result ≡ helix_of p }
{
    p.helix_radius.unwrap_or(0.3 * p.tool_diameter)
}
