// The pieces of a contour in two lent slices: three numbers a row (first point, points, closed 0 or 1),
// and the points' coordinates.
ghost use Rattle.std.specs.Prelude.{◌≡◌, ◌+◌, ◌*◌, ◌<◌, length};
ghost use Rattle.pieces.specs.Piece.{row_at, put_row};

#[derive(Clone, Copy)]
pub struct Row {
    pub first: u32,
    pub points: u32,
    pub closed: bool,
}

// How many pieces there are, and points in all.
#[derive(Clone, Copy)]
pub struct Count {
    pub pieces: usize,
    pub points: usize,
}

pub fn row_at(rows: &[u32], k: usize) -> Row
    requires { 3 * k + 2 < length rows.now }
    ensures { result ≡ row_at rows.now k }
{
    let i = 3 * k;
    Row {
        first: rows[i],
        points: rows[i + 1],
        closed: rows[i + 2] == 1,
    }
}

pub fn put_row(rows: &mut [u32], k: usize, p: Row)
    requires { 3 * k + 2 < length rows.old }
    ensures { rows.new ≡ put_row k p rows.old }
{
    let i = 3 * k;
    rows[i] = p.first;
    rows[i + 1] = p.points;
    rows[i + 2] = if p.closed { 1 } else { 0 };
}
