// One value in each of n places.
ghost use Rattle.std.specs.Prelude.{◌+◌, ◌≤◌, length};
ghost use Rattle.distance.specs.Wrote.{Wrote};

pub fn put(work: &mut [u32], start: usize, n: usize, v: u32)
    requires { start + n ≤ length work.old }
    ensures { Wrote (λ _. v) start 0 n work.old work.new }
{
    work[start..start + n].fill(v);
}
