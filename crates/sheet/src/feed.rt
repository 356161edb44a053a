// A sheet taken in.
ghost use Rattle.std.specs.Prelude.{◌≡◌, false, ◌<◌, ◌≤◌, List, length, take, ℤ, IfSome, MatchOption};
ghost use Rattle.sheet.specs.Owes.{Fed, Finished, is_busy};
ghost use Rattle.sheet.specs.Parts.{Kept, TakenIn};

use crate::give::give;
use crate::state::{State, busy};
use crate::step::take_text;
use events::step::{on_end, on_rest};
use jumper::limits::MAX_PAIRS;
use memchr::memchr;

// A state, how much of the piece was taken in, and the place after what was written.
#[derive(Clone, Copy, Debug, PartialEq, Eq)]
pub struct Feeding {
    pub s: State,
    pub used: usize,
    pub n: usize,
}

// Bytes of a line, none of them a line feed, after the `at` that are kept already, as far as they have room: a line that is longer than any good one
// is bad whatever else it says. How many are kept then.
fn keep(line: &mut [u8; 160], at: usize, bytes: &[u8]) -> usize
    ensures { Kept line.old at bytes.now result line.new }
{
    let from = at.min(line.len());
    let n = bytes.len().min(line.len() - from);
    line[from..from + n].copy_from_slice(&bytes[..n]);
    from + n
}

// The text of a line: what is kept of it, or the bytes of the piece in which it stands as a whole.
fn text_of<'x>(line: &'x [u8; 160], kept: Option<usize>, bytes: &'x [u8]) -> &'x [u8]
    requires { IfSome kept (λ k. k ≤ 160) }
    ensures { MatchOption kept (result.now ≡ bytes.now) (λ k. result.now ≡ take k line.now) }
{
    match kept {
        Some(k) => &line[..k],
        None => bytes,
    }
}

// A line taken in where nothing is to be written, or what there is of it if the piece ends before it does, and how much of the piece that is. A line
// that stands in the piece as a whole isn't copied. `take_text` is called from this one place, so the compiler merges it into its caller.
fn take_line(
    line: &mut [u8; 160],
    a: &mut [i32; MAX_PAIRS],
    b: &mut [i32; MAX_PAIRS],
    s: &mut State,
    piece: &[u8],
) -> usize
    requires { (is_busy s.old ≡ false) × (0 < length piece.now) }
    ensures { TakenIn s.old line.old a.old b.old piece.now s.new result line.new a.new b.new }
{
    let Some(n) = memchr(b'\n', piece) else {
        s.at = keep(line, s.at, piece);
        return piece.len();
    };
    let kept = if s.at == 0 {
        None
    } else {
        Some(keep(line, s.at, &piece[..n]))
    };
    take_text(text_of(line, kept, &piece[..n]), a, b, s);
    n + 1
}

// A piece of a sheet taken in, and what it calls for written from place `at` of the buffer on, until the piece ends or the buffer has no room.
pub fn feed(
    line: &mut [u8; 160],
    a: &mut [i32; MAX_PAIRS],
    b: &mut [i32; MAX_PAIRS],
    mut s: State,
    piece: &[u8],
    out: &mut [u8],
    at: usize,
) -> Feeding
    ensures { Fed s line.old a.old b.old piece.now out.old at result.s result.used result.n line.new a.new b.new out.new }
{
    let mut used = 0;
    let mut n = at;
    while used < piece.len() {
        if busy(s) {
            let g = give(a, b, s, out, n);
            s = g.s;
            n = g.n;
            if busy(s) {
                break;
            }
        }
        used += take_line(line, a, b, &mut s, &piece[used..]);
    }
    Feeding { s, used, n }
}

// The sheet ends. A last line without its line feed is a bad frame, and an open line is out of sequence.
pub fn finish(line: &[u8; 160], mut s: State) -> State
    ensures { (a b : List ℤ) → Finished s line.now a b result }
{
    if busy(s) {
        return s;
    }
    let t = if s.at == 0 {
        on_end(s.machine)
    } else {
        on_rest(s.machine)
    };
    s.take_step(t);
    s
}
