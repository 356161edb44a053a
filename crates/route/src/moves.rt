// The frames 21 of a route, written as lines (01, "Sheets"): worked out as they are written, so that no table of the route is kept.
ghost use Rattle.std.specs.Prelude.{◌≡◌, ◌<◌, length};
ghost use Rattle.route.specs.Moves.{move_text, TrackOut, WireOut, RouteOut, MovesOut};

use crate::column::Wire;
use frame::write::{Move, put_move};
use jumper::asked::Question;

// How far the frames have come: the wire and its track that are next, and the place after what was written.
#[derive(Clone, Copy, Debug, PartialEq, Eq)]
pub struct Reached {
    pub wire: usize,
    pub track: usize,
    pub at: usize,
}

// The frames 21 of line `line` from `wire` and its `track` on, from place `at` of the buffer on, as far as it has room for whole frames. Rows, a
// separation or an offset that are not accepted have no route, and nothing is written.
pub fn give_moves(
    a: &[i32],
    b: &[i32],
    line: u8,
    s: usize,
    d: i32,
    wire: usize,
    track: usize,
    out: &mut [u8],
    at: usize,
) -> Reached
    ensures { MovesOut line s d a.now b.now wire track out.old at result.wire result.track result.at out.new }
{
    match Question::check(a, b, s, d) {
        Ok(asked) => Moves { line, asked }.give(wire, track, &mut Writer { out, at }),
        Err(_) => Reached {
            wire: a.len(),
            track: 0,
            at,
        },
    }
}

// A buffer that frames are written into, and the place after the last one.
#[derive(Drop)]
struct Writer<'a> {
    out: &'a mut [u8],
    at: usize,
}

impl Writer<'_> {
    // A wire's frame on a track, if it runs there; false where there is no room for it.
    fn put(&mut self, m: Move) -> bool
        ensures same { (self.new.out.ghost_name ≡ self.old.out.ghost_name) × (length self.new.out.now ≡ length self.old.out.now) }
        ensures wrote { TrackOut (move_text m) self.old.out.now self.old.at result self.new.at self.new.out.now }
    {
        let Move { from, to, .. } = m;
        if from == to {
            return true;
        }
        let next = put_move(self.out, self.at, m);
        if next == self.at {
            return false;
        }
        self.at = next;
        true
    }
}

// The route that is asked for, as frames of a line.
#[derive(Clone, Copy)]
struct Moves<'a> {
    line: u8,
    asked: Question<'a>,
}

impl Moves<'_> {
    // The wires from `wire` and its `track` on.
    fn give(self, wire: usize, track: usize, writer: &mut Writer<'_>) -> Reached
        ensures same { (writer.new.out.ghost_name ≡ writer.old.out.ghost_name) × (length writer.new.out.now ≡ length writer.old.out.now) }
        ensures wrote { RouteOut self.entry.line self.entry.asked wire track writer.old.out.now writer.old.at
            result.wire result.track result.at writer.new.out.now }
    {
        let n = self.asked.rows.bottom.len();
        let mut next = track;
        for i in wire..n {
            if let Some(track) = self.give_wire(i, next, writer) {
                return Reached {
                    wire: i,
                    track,
                    at: writer.at,
                };
            }
            next = 0;
        }
        Reached {
            wire: n,
            track: 0,
            at: writer.at,
        }
    }

    // One wire from track `track` on; the track that is next, where there was no room for its frame. A wire that has come to the column of its top pad
    // stays there.
    fn give_wire(self, i: usize, track: usize, writer: &mut Writer<'_>) -> Option<usize>
        requires { i < length self.asked.rows.bottom.now }
        ensures same { (writer.new.out.ghost_name ≡ writer.old.out.ghost_name) × (length writer.new.out.now ≡ length writer.old.out.now) }
        ensures wrote { WireOut self.entry.line self.entry.asked i track writer.old.out.now writer.old.at result writer.new.at writer.new.out.now }
    {
        let wire = Wire::of(self.asked, i);
        let mut from = wire.column(track);
        for t in track..self.asked.separation {
            if from == wire.end {
                return None;
            }
            let to = wire.column(t + 1);
            let moved = Move {
                line: self.line,
                wire: i,
                track: t,
                from,
                to,
            };
            if !writer.put(moved) {
                return Some(t);
            }
            from = to;
        }
        None
    }
}
