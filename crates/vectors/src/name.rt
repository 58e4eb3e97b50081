// The functions' names. A function's number is its place.
ghost use Rattle.std.specs.Prelude.{◌<◌, IfSome};

pub const COUNT: usize = 17;

pub const NAMES: [&str; COUNT] = [
    "sat_u64",
    "sat_u32",
    "max",
    "min",
    "clamp",
    "abs",
    "is_finite",
    "floor",
    "ceil",
    "round",
    "narrow",
    "sqrt",
    "cos",
    "sin",
    "to_radians",
    "to_degrees",
    "total_cmp",
];

pub fn find(name: &[u8]) -> Option<usize>
    ensures { IfSome result (λ f. f < 17) }
{
    NAMES.iter().position(|n| n.as_bytes() == name)
}
