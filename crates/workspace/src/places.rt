// Where regions of the workspace begin, for a raster of n cells, that only a round reads (more are setup's).
ghost use Rattle.std.specs.Prelude.{◌≡◌, ◌≤◌};
ghost use Rattle.setup.specs.Layout.{most, rows_from};

// The rows of the pieces.
pub fn rows(n: usize) -> usize
    requires { n ≤ most }
    ensures { result ≡ rows_from n }
{
    21 * n
}
