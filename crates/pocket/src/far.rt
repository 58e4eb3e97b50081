// The distance map.
ghost use Rattle.std.specs.Prelude.{◌≡◌, OnOk};
ghost use Rattle.distance.specs.Least.{Transformed};
ghost use Rattle.pocket.specs.Answers.{of_done};
ghost use Rattle.pocket.specs.Refusals.{far_asked};
ghost use Rattle.pocket.specs.Leaves.{on_far, told_far, distance_map_of};

use super::answers::of_done;
use super::ranges::sides_fit;
use super::refusals::Refusal;

// The sides, and the lengths of marks, squares and distances.
fn ask_far(
    nx: usize,
    ny: usize,
    marks: usize,
    squares: usize,
    distances: usize,
) -> Result<(), Refusal>
    ensures { result ≡ far_asked nx ny marks squares distances }
{
    if !sides_fit(nx, ny) {
        return Err(Refusal::NoRaster);
    }
    let n = ny * nx;
    if (n <= marks) & ((n + 3 * nx <= squares) & (n <= distances)) {
        return Ok(());
    }
    Err(Refusal::TooShort)
}

// The distance of each cell to the nearest whose byte is `mark`: the least exact square, and its rounded root.
pub fn distance_map(
    nx: usize,
    ny: usize,
    marks: &[u8],
    mark: u8,
    squares: &mut [u32],
    distances: &mut [f64],
) -> Result<(), Refusal>
    ensures distances_after { on_far result squares.new distances.new ≡ distance_map_of nx ny marks.now mark squares.old distances.old }
    ensures transformed { OnOk result (Transformed mark marks.now nx ny squares.old squares.new) }
{
    ask_far(nx, ny, marks.len(), squares.len(), distances.len())?;
    distance::transform(marks, mark, nx, ny, squares);
    distance::roots::distances(squares, ny * nx, distances);
    Ok(())
}

#[unsafe(no_mangle)]
pub extern "C" fn pocket_distance_map(
    nx: usize,
    ny: usize,
    marks: &[u8],
    mark: u8,
    squares: &mut [u32],
    distances: &mut [f64],
) -> u32
    ensures distances_after { on_far result squares.new distances.new ≡ told_far of_done (distance_map_of nx ny marks.now mark squares.old distances.old) }
    ensures transformed { result ≡ 0 → Transformed mark marks.now nx ny squares.old squares.new }
{
    of_done(distance_map(nx, ny, marks, mark, squares, distances))
}
