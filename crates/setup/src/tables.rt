// The tool's tables, worked out once a plan.
ghost use Rattle.std.specs.Prelude.{◌≤◌, length};
ghost use Rattle.raster.specs.Contact.{samples_of};
ghost use Rattle.raster.specs.Grid.{Sides};
ghost use Rattle.rims.specs.Offsets.{Rims};
ghost use Rattle.rims.specs.Boxes.{Boxed};
ghost use Rattle.std.specs.Float.{binary64};
ghost use Rattle.std.specs.Float.Ieee.{sub};
ghost use Rattle.setup.specs.Tables.{ToolTables};

use raster::contact::{fill_rim, samples_of};
use raster::grid::Grid;

// The rim's directions, and the cells under it.
fn fill_rims(g: Grid, r: f64, wide: f64, samples: usize, w: &mut [f64])
    requires sides { Sides g }
    requires samples_bound { samples ≤ 2048 }
    requires in_bounds { 8192 ≤ length w.old }
    ensures { Rims g r (samples_of samples) w.new × Boxed g wide (samples_of samples) 12544 w.new × Boxed g (sub binary64 r g.cell) (samples_of samples) 14848 w.new }
{
    let n = samples_of(samples);
    fill_rim(w, n);
    rims::offsets::fill(g, r, n, w);
    rims::boxes::fill_all(g, wide, r - g.cell, n, w);
}

// Of a setup it takes no more than this: grid, radius, wider radius and samples.
pub fn fill(g: Grid, r: f64, wide: f64, samples: usize, w: &mut [f64])
    requires sides { Sides g }
    requires samples_bound { samples ≤ 2048 }
    requires in_bounds { 8192 ≤ length w.old }
    ensures { ToolTables g r wide (samples_of samples) w.new }
{
    fill_rims(g, r, wide, samples, w);
    spans::table::fill(g, r, &mut w[6144..8192]);
}
