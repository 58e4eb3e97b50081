// Tests of distances against a bound, by their squares: the first square that fails is sought near
// the bound's own square, and told by two roots. Where none is told, roots are compared.
ghost use Rattle.std.specs.Prelude.{◌≡◌, ℕ, true, false, Some};
ghost use Rattle.std.specs.Float.Ieee as Ieee;
ghost use Rattle.distance.specs.Limits.{scaled_of, passes_of, Splits, Ordered, LimitOf};

use super::roots::distance_of;

// A distance, times the scale where there is one, is to be at most x, or below x if strict.
#[derive(Clone, Copy)]
pub struct Threshold {
    pub scale: Option<f64>,
    pub strict: bool,
    pub x: f64,
}

impl Threshold {
    fn length(self, square: u32) -> f64
        ensures { result ≡ scaled_of self.scale square }
    {
        let d = distance_of(square);
        match self.scale {
            Some(scale) => d * scale,
            None => d,
        }
    }

    fn passes(self, square: u32) -> bool
        ensures { result ≡ passes_of self square }
    {
        let v = self.length(square);
        if self.strict { v < self.x } else { v <= self.x }
    }

    // Whether n is the first square that fails.
    fn splits(self, n: u32) -> bool
        ensures { result ≡ true → Splits (passes_of self) n }
    {
        !self.passes(n) && (n == 0 || self.passes(n - 1))
    }

    // Whether x is below infinity, and a scale, if there is one, between 0 and infinity.
    fn is_ordered(self) -> bool
        ensures { result ≡ true → Ordered self }
    {
        let top = f64::from_bits(0x7ff0_0000_0000_0000);
        match self.scale {
            Some(scale) => (0.0 < scale) & (scale < top) & (self.x < top),
            None => self.x < top,
        }
    }

    // Where the first square that fails is sought.
    fn guess(self) -> u32 {
        let y = self.scale.map_or(self.x, |scale| self.x / scale);
        if y < 0.0 {
            return 0;
        }
        numbers::cast::sat_u32(y * y)
    }
}

// A threshold, and the first square that fails it, where that is told.
#[derive(Clone, Copy)]
pub struct Limit {
    pub threshold: Threshold,
    pub below: Option<u32>,
    ghost told: { (n : ℕ) → below ≡ Some n → LimitOf threshold n },
}

impl Limit {
    pub fn of(threshold: Threshold) -> Limit
        ensures { result.threshold ≡ threshold }
    {
        let g = threshold.guess();
        let below = if g < 33554432 && threshold.is_ordered() {
            (g..g + 3).find(|&n| threshold.splits(n))
        } else {
            None
        };
        Limit { threshold, below }
    }

    pub fn is_within(self, square: u32) -> bool
        ensures { result ≡ passes_of self.threshold square }
    {
        match self.below {
            Some(below) => square < below,
            None => self.threshold.passes(square),
        }
    }

    // Whether a distance is above x.
    pub fn beyond(self, square: u32) -> bool
        requires strict_value { self.threshold.strict ≡ false }
        ensures { result ≡ Ieee.lt self.threshold.x (scaled_of self.threshold.scale square) }
    {
        match self.below {
            Some(below) => below <= square,
            None => self.threshold.x < self.threshold.length(square),
        }
    }
}
