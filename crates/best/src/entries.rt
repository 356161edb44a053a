// The entries of a level of the halving, read where they stand in the rows, and the range of the rule at a number among them.
ghost use Rattle.std.specs.Prelude.{◌≡◌, ◌*◌, ◌<◌, length};
ghost use Rattle.best.specs.Strides.{Strided};

use crate::read::read;
use jumper::range::OffsetRange;
use jumper::rows::Rows;

// Entry j of x is pad step j of the bottom row, less step j; that of y is the top row's. The rows are lent: the processor waits for what is written in four
// parts and at once copied whole.
#[derive(Clone, Copy)]
pub(crate) struct Entries<'a> {
    rows: &'a Rows<'a>,
    step: usize,
    pub(crate) len: usize,
    ghost strided: { Strided (length rows.now.bottom.now) step len },
}

impl<'a> Entries<'a> {
    ghost use Rattle.wiring.specs.Fit.{half};
    ghost use Rattle.best.specs.Work.{x_of, y_of, trial_of};

    // All of x and y.
    pub(crate) fn whole(rows: &'a Rows<'a>) -> Self
        ensures of { result.rows ≡ rows.entry }
        ensures step { result.step ≡ 1 }
        ensures len { result.len ≡ length rows.now.bottom.now }
    {
        Entries {
            rows,
            step: 1,
            len: rows.bottom.len(),
        }
    }

    // Entries 0, 2, 4 ..
    pub(crate) fn even_half(&self) -> Self
        requires { 1 < self.now.len }
        ensures of { result.rows ≡ self.now.rows }
        ensures step { result.step ≡ 2 * self.now.step }
        ensures len { result.len ≡ half self.now.len }
    {
        Entries {
            rows: self.rows,
            step: 2 * self.step,
            len: self.len.div_ceil(2),
        }
    }

    // A trial: the range at s, and how many differences were read for it. Each low end is step s further on than the difference that is read for it, and each
    // high end as much less: this is added once.
    pub(crate) fn try_at(&self, s: usize) -> (OffsetRange, usize)
        requires { s < self.now.len }
        ensures { result ≡ trial_of self.now.len (x_of self.now) (y_of self.now) s }
    {
        let gap = self.step * s;
        let (ends, count) = read(self.rows, self.step, gap, self.len - s);
        let shift = gap as i32;
        let range = OffsetRange {
            low: ends.low + shift,
            high: ends.high - shift,
        };
        (range, count)
    }
}
