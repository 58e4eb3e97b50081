// What a line does to the map and the log, and what the bench answers.
#![tactic(auto, unfolding(crate::specs::Obey::mapped, crate::specs::Obey::cut, crate::specs::Obey::restored, crate::specs::Obey::obeyed))]

ghost use Rattle.std.specs.Prelude.{◌≡◌, ◌≤◌, IfSome, length};
ghost use Rattle.geom.specs.Vec.{v2};
ghost use Rattle.raster.specs.Log.{Logged};
ghost use Rattle.bench_lines.specs.Line.{Few, Sound};
ghost use Rattle.bench_lines.specs.Obey.{no_map, grid_for, quarter_of, filled, out, Lent, Fit, refused, mapped, cut, restored, obeyed};

use super::line::{Line, Sides};
use geom::vec2::Vec2;
use raster::grid::Grid;
use std::fmt;

#[derive(Clone, Copy)]
pub struct Bench {
    // Those of the map, where there is one.
    pub sides: Option<Sides>,
    // The log's count of the last pass, where it is not undone.
    pub pass: Option<usize>,
}

// Standing cells last.
#[derive(Clone, Copy)]
pub enum Answer {
    Started(usize),
    Removed(usize, usize),
    Restored(usize),
}

impl fmt::Display for Answer {
    fn fmt<W: fmt::Write>(&self, f: &mut fmt::Formatter<W>) -> fmt::Result {
        match self {
            Answer::Started(standing) => write!(f, "map {standing}"),
            Answer::Removed(removed, standing) => write!(f, "pass {removed} {standing}"),
            Answer::Restored(standing) => write!(f, "undo {standing}"),
        }
    }
}

#[derive(Clone, Copy)]
pub struct Done {
    pub bench: Bench,
    // A line that is bad, or that cannot be obeyed, has none.
    pub answer: Option<Answer>,
}

pub fn start() -> Bench
    ensures { result ≡ no_map }
{
    Bench {
        sides: None,
        pass: None,
    }
}

fn grid_of(s: Sides) -> Grid
    ensures { result ≡ grid_for s }
{
    Grid {
        origin: Vec2 { x: 0.0, y: 0.0 },
        cell: 1.0,
        nx: s.nx,
        ny: s.ny,
    }
}

fn quarter(n: usize) -> f64
    ensures { result ≡ quarter_of n }
{
    numbers::cast::float_of(n) * 0.25
}

fn point(x: usize, y: usize) -> Vec2
    ensures { result ≡ v2 (quarter_of x) (quarter_of y) }
{
    Vec2 {
        x: quarter(x),
        y: quarter(y),
    }
}

// The first n cells are stock and no others, so that all bytes can be counted.
fn fill(map: &mut [u8], n: usize)
    requires { n ≤ length map.old }
    ensures { map.new ≡ filled n map.old }
{
    map[..n].fill(1);
    map[n..].fill(0);
}

fn refuse(b: Bench) -> Done
    ensures { result ≡ refused b }
{
    Done {
        bench: b,
        answer: None,
    }
}

fn new_map(s: Sides, map: &mut [u8], log: &[u32]) -> Done
    requires sides { Few s }
    requires long { 4096 ≤ length map.old }
    ensures { out result map.new log.now ≡ mapped s map.old log.now }
{
    fill(map, s.ny * s.nx);
    let standing = raster::stock::count(map);
    Done {
        bench: Bench {
            sides: Some(s),
            pass: None,
        },
        answer: Some(Answer::Started(standing)),
    }
}

// A pass has a log of its own.
fn pass(s: Sides, from: Vec2, to: Vec2, r: f64, map: &mut [u8], log: &mut [u32]) -> Done
    requires sides { Few s }
    requires lent { Lent map.old log.old }
    ensures { out result map.new log.new ≡ cut s from to r map.old log.old }
{
    let g = grid_of(s);
    let removed = raster::log::clear_disk_after_logged(g, map, from, to, r, log, 0);
    let standing = raster::stock::count(map);
    Done {
        bench: Bench {
            sides: Some(s),
            pass: Some(removed),
        },
        answer: Some(Answer::Removed(removed, standing)),
    }
}

// Then no pass is left to undo.
fn undo(b: Bench, count: usize, map: &mut [u8], log: &[u32]) -> Done
    requires { Logged log.now count (length map.old) }
    ensures { out result map.new log.now ≡ restored b count map.old log.now }
{
    raster::log::undo(map, &log[..count]);
    let standing = raster::stock::count(map);
    Done {
        bench: Bench { pass: None, ..b },
        answer: Some(Answer::Restored(standing)),
    }
}

// A whole line.
pub fn obey(b: Bench, line: Option<Line>, map: &mut [u8], log: &mut [u32]) -> Done
    requires fit { Fit b map.old log.old }
    requires sound { IfSome line Sound }
    ensures { out result map.new log.new ≡ obeyed b line map.old log.old }
{
    match line {
        Some(Line::Map(s)) => new_map(s, map, log),
        Some(Line::Pass(x, y, z, w, r)) => match b.sides {
            Some(s) => pass(s, point(x, y), point(z, w), quarter(r), map, log),
            None => refuse(b),
        },
        Some(Line::Undo) => match b.pass {
            Some(count) => undo(b, count, map, log),
            None => refuse(b),
        },
        None => refuse(b),
    }
}
