// What is lent, cleared up: the map and the used rows and triples stay, all else becomes zero.
ghost use Rattle.std.specs.Prelude.{◌≡◌, ◌*◌, ◌≤◌, length, replicate};
ghost use Rattle.geom.specs.Vec.{f0};
ghost use Rattle.field.specs.Field.{s0};
ghost use Rattle.report.specs.Zero.{blank_from, lent, cleared_to};

// What stays: cells of the map, rows, triples.
#[derive(Clone, Copy)]
pub struct Used {
    pub cells: usize,
    pub rows: usize,
    pub triples: usize,
}

// The workspace.
fn clear_workspace(n: usize, b: &mut [u8], u: &mut [u32], f: &mut [f32], w: &mut [f64])
    requires { n ≤ length b.old }
    ensures b_after { b.new ≡ blank_from 0 n b.old }
    ensures u_after { u.new ≡ replicate (length u.old) 0 }
    ensures f_after { f.new ≡ replicate (length f.old) s0 }
    ensures w_after { w.new ≡ replicate (length w.old) f0 }
{
    b[n..].fill(0);
    u.fill(0);
    f.fill(0.0);
    w.fill(0.0);
}

pub fn clear(
    c: Used,
    b: &mut [u8],
    u: &mut [u32],
    f: &mut [f32],
    w: &mut [f64],
    rows: &mut [u32],
    triples: &mut [f64],
)
    requires cells_in_bounds { c.cells ≤ length b.old }
    requires rows_in_bounds { c.rows * 3 ≤ length rows.old }
    requires triples_in_bounds { c.triples * 3 ≤ length triples.old }
    ensures { lent b.new u.new f.new w.new rows.new triples.new ≡ cleared_to c b.old rows.old triples.old (lent b.old u.old f.old w.old rows.old triples.old) }
{
    let r = 3 * c.rows;
    let t = 3 * c.triples;
    clear_workspace(c.cells, b, u, f, w);
    rows[r..].fill(0);
    triples[t..].fill(0.0);
}
