// What planning fixes once (adaptive.rs of the Rust, `Planner::new`): the limits of a cut, and the tests
// that every upper layer makes of a tool's place.
#![tactic(auto)]

ghost use Rattle.std.specs.Prelude.{◌≡◌};
ghost use Rattle.setup.specs.Made.{setup_of};

pub mod layout;
pub mod limits;
pub mod place;
pub mod tables;

use geom::region::Region;
use numbers::bound::Bound;
use raster::grid::Grid;

// The tool's radius is r; r_guard is the wider one that contact is measured at; `keep` is how far the
// tool's centre keeps from walls. Contact is at most `guard` and aims at `target`.
#[derive(Clone, Copy)]
pub struct Setup {
    pub grid: Grid,
    pub region: Region,
    pub r: f64,
    pub r_guard: f64,
    pub keep: Bound,
    pub target: f64,
    pub guard: f64,
    pub samples: usize,
    pub keep_down: bool,
}

impl Setup {
    // The tool's diameter, the stock to leave at walls, and the engagement in degrees.
    pub fn new(
        grid: Grid,
        region: Region,
        diameter: f64,
        leave: f64,
        degrees: f64,
        keep_down: bool,
    ) -> Setup
        ensures { result ≡ setup_of grid region diameter leave degrees keep_down }
    {
        let r = diameter * 0.5;
        let keep = Bound::of(r + leave);
        let guard = limits::guard_of(numbers::circle::to_radians(degrees), grid.cell, r);
        Setup {
            grid,
            region,
            r,
            r_guard: r + 0.25 * grid.cell,
            keep,
            target: limits::target_of(guard),
            guard,
            samples: limits::samples_of(r, grid.cell),
            keep_down,
        }
    }
}
