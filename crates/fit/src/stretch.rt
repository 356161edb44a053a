// The stretch at fault: the part of the caller's own row that a misfit spans.
ghost use Rattle.std.specs.Prelude.{◌≡◌, cond, ◌+◌, ◌≤◌, ◌<◌, length, take, drop};
ghost use Rattle.std.specs.Int.Signed.{le_z};
ghost use Rattle.jumper.specs.Rows.{AcceptedRow};
ghost use Rattle.fit.specs.Stretch.{span, stretch_of, StretchPlace};

use crate::misfit::first_misfit;
use jumper::asked::Question;
use jumper::rows::Rows;
use jumper::serves::rule_at;

// How many columns pads i to i + s of a row span. Here and in `narrower` s is the rule's number.
fn span_of(a: &[i32], i: usize, s: usize) -> i32
    requires { AcceptedRow a.now × (i + s < length a.now) }
    ensures { result ≡ span a.now i s }
{
    a[i + s] - a[i]
}

// The stretch at fault, in the row where it lies: an empty part at the bottom row's start where there is none.
pub fn stretch<'a>(a: &'a [i32], b: &'a [i32], s: usize, d: i32) -> &'a [i32]
    ensures { result.now ≡ stretch_of a.now b.now s d }
{
    let place = stretch_place(a, b, s, d);
    if place.row == 0 {
        place.part(a)
    } else {
        place.part(b)
    }
}

// Where the stretch at fault lies, for callers that can't be handed a part of a row: row 0 is the bottom row, 1 the top row.
#[repr(C)]
#[derive(Clone, Copy, Debug, PartialEq, Eq, Hash)]
pub struct Place {
    pub row: u8,
    pub start: usize,
    pub pads: usize,
}

impl Place {
    const NOWHERE: Self = Place {
        row: 0,
        start: 0,
        pads: 0,
    };

    // The part that it names of the row that it names.
    fn part(self, row: &[i32]) -> &[i32]
        requires { self.start + self.pads ≤ length row.now }
        ensures { result.now ≡ take self.pads (drop self.start row.now) }
    {
        &row[self.start..self.start + self.pads]
    }
}

// The stretch at fault told by its place: no pads where there is none.
pub fn stretch_place(a: &[i32], b: &[i32], s: usize, d: i32) -> Place
    ensures { StretchPlace a.now b.now s d result }
{
    let Ok(q) = Question::check(a, b, s, d) else {
        return Place::NOWHERE;
    };
    match first_misfit(q) {
        None => Place::NOWHERE,
        Some(m) => narrower(q.rows, m.pair, rule_at(s)),
    }
}

// Pads i to i + s of the row in which they span fewer columns.
fn narrower(rows: Rows<'_>, i: usize, s: usize) -> Place
    requires { i + s < length rows.bottom.now }
    ensures { result ≡ record { row = cond (le_z (span rows.entry.bottom.now i s) (span rows.entry.top.now i s)) 0 1; start = i; pads = s + 1 } }
{
    Place {
        row: u8::from(span_of(rows.top, i, s) < span_of(rows.bottom, i, s)),
        start: i,
        pads: s + 1,
    }
}
