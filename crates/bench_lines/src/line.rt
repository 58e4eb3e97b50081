// A line: `map` and two sides, `pass` and five numbers, or `undo`. A bad one is none of them.
#![tactic(auto, unfolding(crate::specs::Line::side_of, crate::specs::Line::map_of, crate::specs::Line::pass_of, crate::specs::Line::undo_of, crate::specs::Line::word_of, crate::specs::Line::line_of))]

ghost use Rattle.std.specs.Prelude.{◌≡◌};
ghost use Rattle.bench_lines.specs.Line.{side_of, map_of, pass_of, undo_of, word_of, line_of};

use super::words::Words;

// Columns and rows.
#[derive(Clone, Copy)]
pub struct Sides {
    pub nx: usize,
    pub ny: usize,
}

#[derive(Clone, Copy)]
pub enum Line {
    Map(Sides),
    // From x, y to x, y at a radius, in quarter cells.
    Pass(usize, usize, usize, usize, usize),
    Undo,
}

fn is_side(n: usize) -> bool
    ensures { result ≡ side_of n }
{
    0 < n && n <= 64
}

fn map_line(w: Words) -> Option<Line>
    ensures { result ≡ map_of w }
{
    if w.count == 2 && is_side(w.d) && is_side(w.last) {
        return Some(Line::Map(Sides {
            nx: w.d,
            ny: w.last,
        }));
    }
    None
}

fn pass_line(w: Words) -> Option<Line>
    ensures { result ≡ pass_of w }
{
    if w.count == 5 {
        return Some(Line::Pass(w.a, w.b, w.c, w.d, w.last));
    }
    None
}

fn undo_line(w: Words) -> Option<Line>
    ensures { result ≡ undo_of w }
{
    if w.count == 0 {
        return Some(Line::Undo);
    }
    None
}

// By the word: the letters of map, pass and undo, eight bits each.
fn by_word(w: Words) -> Option<Line>
    ensures { result ≡ word_of w }
{
    if w.word == 0x6d_6170 {
        return map_line(w);
    }
    if w.word == 0x7061_7373 {
        return pass_line(w);
    }
    if w.word == 0x756e_646f {
        return undo_line(w);
    }
    None
}

// The line that ends here.
pub fn finish(words: Option<Words>) -> Option<Line>
    ensures { result ≡ line_of words }
{
    let w = words?;
    if w.empty {
        return None;
    }
    by_word(w)
}
