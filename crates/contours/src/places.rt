// Where the parts of the lent words begin, for a raster of n cells: the segments at 0, then the edge after
// each edge, then the rows of the pieces.
ghost use Rattle.std.specs.Prelude.{◌≡◌, ◌≤◌};
ghost use Rattle.setup.specs.Layout.{most};
ghost use Rattle.contours.specs.Places.{next_at, rows_at, words_end};

pub fn next_at(n: usize) -> usize
    requires { n ≤ most }
    ensures { result ≡ next_at n }
{
    4 * n
}

pub fn rows_at(n: usize) -> usize
    requires { n ≤ most }
    ensures { result ≡ rows_at n }
{
    6 * n
}

pub fn words_end(n: usize) -> usize
    requires { n ≤ most }
    ensures { result ≡ words_end n }
{
    9 * n
}
