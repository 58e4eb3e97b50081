// The limits of a cut: the guard, which no planned contact exceeds, the target, at which passes are
// traced, and how many samples measure a contact.
ghost use Rattle.std.specs.Prelude.{◌≡◌};
ghost use Rattle.setup.specs.Limits.{guard_of, target_of, samples_for};

use numbers::circle::PI;

// max(half the limit, min(0.95 limit, limit - 2 cell/r))
pub fn guard_of(limit: f64, cell: f64, r: f64) -> f64
    ensures { result ≡ guard_of limit cell r }
{
    let margin = numbers::order::min(0.95 * limit, limit - 2.0 * cell / r);
    numbers::order::max(limit * 0.5, margin)
}

pub fn target_of(guard: f64) -> f64
    ensures { result ≡ target_of guard }
{
    0.85 * guard
}

// A sample for each half cell of the rim, 64 to 2,048 of them.
pub fn samples_of(r: f64, cell: f64) -> usize
    ensures { result ≡ samples_for r cell }
{
    let n = numbers::cast::sat_u64(numbers::whole::ceil(4.0 * PI * r / cell)) as usize;
    n.clamp(64, 2048)
}
