// What is read of the columns for the range at a number.
ghost use Rattle.std.specs.Prelude.{◌≡◌, ◌<◌, length, ◌-ℤ◌};
ghost use Rattle.wiring.specs.Wiring.{pad};
ghost use Rattle.best.specs.Work.{Readable, read_of};

use jumper::range::OffsetRange;
use jumper::rows::Rows;

// Bottom pad i less top pad j.
fn difference(rows: &Rows<'_>, i: usize, j: usize) -> i32
    requires { (i < length rows.now.bottom.now) × (j < length rows.now.bottom.now) }
    ensures { result ≡ pad rows.now.bottom.now i -ℤ pad rows.now.top.now j }
{
    rows.bottom[i] - rows.top[j]
}

// The ends of the differences of columns `gap` pads apart, at `count` pads from the first on, `step` pads from one to the next; and how many are read: two for
// the first pad, and two more in each round.
fn ends(rows: &Rows<'_>, step: usize, gap: usize, count: usize) -> (OffsetRange, usize)
    requires { Readable (length rows.now.bottom.now) step gap count }
    ensures { result ≡ read_of rows.now.bottom.now rows.now.top.now 0 step gap count }
{
    let mut low = difference(rows, 0, gap);
    let mut high = difference(rows, gap, 0);
    let mut read = 2;
    for i in 1..count {
        let k = step * i;
        low = low.max(difference(rows, k, k + gap));
        high = high.min(difference(rows, k + gap, k));
        read += 2;
    }
    (OffsetRange { low, high }, read)
}

// About half of all differences are read at step 1 and a quarter at step 2. There the step is a number that the compiler knows: it lays out a loop for each,
// and makes vector code of it.
pub(crate) fn read(rows: &Rows<'_>, step: usize, gap: usize, count: usize) -> (OffsetRange, usize)
    requires { Readable (length rows.now.bottom.now) step gap count }
    ensures { result ≡ read_of rows.now.bottom.now rows.now.top.now 0 step gap count }
{
    match step {
        1 => ends(rows, 1, gap, count),
        2 => ends(rows, 2, gap, count),
        _ => ends(rows, step, gap, count),
    }
}
