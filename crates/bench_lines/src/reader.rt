// A line is obeyed where it ends.
ghost use Rattle.std.specs.Prelude.{◌≡◌};
ghost use Rattle.bench_lines.specs.Line.{line_of};
ghost use Rattle.bench_lines.specs.Obey.{out, Fit, obeyed};

use super::line::finish;
use super::obey::{Bench, Done, obey};
use super::words::Words;

// The line that ends here, obeyed.
pub fn line_end(b: Bench, words: Option<Words>, map: &mut [u8], log: &mut [u32]) -> Done
    requires { Fit b map.old log.old }
    ensures log_after { out result map.new log.new ≡ obeyed b (line_of words) map.old log.old }
    ensures fit { Fit result.bench map.new log.new }
{
    obey(b, finish(words), map, log)
}
