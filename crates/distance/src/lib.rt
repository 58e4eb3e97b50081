// The exact Euclidean distance transform of a map of marks, in whole numbers (Felzenszwalb and
// Huttenlocher; the whole-number steps are Meijster's): the rows to the nearest mark of each
// column, then the lower envelope of a row's parabolas.
#![tactic(auto)]

ghost use Rattle.std.specs.Prelude.{◌≡◌, ◌+◌, ◌*◌, ◌≤◌, length};
ghost use Rattle.distance.specs.Least.{Transformed, MapSides};
ghost use Rattle.distance.specs.Nearest.{transform_of};

pub mod columns;
pub mod limits;
pub mod roots;
mod rows;
mod write;

// Stands for infinity, where the map has no mark.
pub const FAR: u32 = 4294967295;

// The least squared distance of each cell to a cell whose byte is `mark`, FAR where there is none:
// `work` begins with the map's squares. The 3 nx places after them are scratch, 0 in the end.
pub fn transform(marks: &[u8], mark: u8, nx: usize, ny: usize, work: &mut [u32])
    requires map_sides { MapSides nx ny }
    requires nx_in_bounds { ny * nx ≤ length marks.now }
    requires nx_in_bounds_2 { ny * nx + 3 * nx ≤ length work.old }
    ensures transformed { Transformed mark marks.now nx ny work.old work.new }
    ensures work_after { work.new ≡ transform_of mark marks.now nx ny work.old }
{
    let cells = ny * nx;
    columns::first(marks, mark, nx, ny, work);
    columns::down(marks, mark, nx, ny, cells, work);
    columns::up(nx, ny, cells, work);
    rows::all(nx, ny, cells, work);
    write::put(work, cells, 3 * nx, 0);
}
