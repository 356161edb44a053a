// One level of the halving: its best number from that of its even half.
ghost use Rattle.std.specs.Prelude.{◌≡◌, IfSome, ◌+◌, ◌*◌, ◌≤◌, ◌<◌};
ghost use Rattle.jumper.specs.Limits.{max_pairs};
ghost use Rattle.jumper.specs.Span.{range_of};
ghost use Rattle.best.specs.Halving.{levels, from_half};
ghost use Rattle.best.specs.Work.{IsLevel, x_of, y_of};

use crate::entries::Entries;
use jumper::range::OffsetRange;

// The best number of a level, how many differences were read for it, and the range there, unless it was taken without a trial.
#[derive(Clone, Copy)]
pub(crate) struct Level {
    pub(crate) best: usize,
    pub(crate) count: usize,
    pub(crate) range: Option<OffsetRange>,
}

impl Level {
    pub(crate) const ONE_PAIR: Self = Level {
        best: 0,
        count: 0,
        range: None,
    };

    // The level of these entries over that of their even half, whose best is h: 2h - 1 if h is not 0, then 2h; the first whose range isn't empty is taken,
    // else 2h + 1 without a trial.
    pub(crate) fn over(self, entries: &Entries<'_>) -> Self
        requires more { 1 < entries.now.len }
        requires within { 4 * self.best ≤ entries.now.len + 1 }
        requires cheap { self.count ≤ 100000 }
        ensures { let m = entries.now.len in
            let x = x_of entries.now in
            let y = y_of entries.now in
            IsLevel m x y (from_half m x y self.best self.count) result }
    {
        let even = 2 * self.best;
        let mut count = self.count;
        for s in even.saturating_sub(1)..even + 1 {
            let (range, read) = entries.try_at(s);
            count += read;
            if !range.is_empty() {
                return Level {
                    best: s,
                    count,
                    range: Some(range),
                };
            }
        }
        Level {
            best: even + 1,
            count,
            range: None,
        }
    }

    // The range at its best: from its trial, or read now.
    pub(crate) fn kept_or_read(self, entries: &Entries<'_>) -> OffsetRange
        requires inside { self.best < entries.now.len }
        requires kept { IfSome self.range (λ g. g ≡ range_of entries.now.len (x_of entries.now) (y_of entries.now) self.best) }
        ensures { result ≡ range_of entries.now.len (x_of entries.now) (y_of entries.now) self.best }
    {
        match self.range {
            Some(range) => range,
            None => entries.try_at(self.best).0,
        }
    }
}

// How many levels there are from n pairs down to one.
#[tactic(auto, using(crate::proofs::Levels::no_more_levels, crate::proofs::Levels::level_up, crate::proofs::Levels::few_levels))]
pub(crate) fn count_levels(n: usize) -> usize
    requires { (1 ≤ n) × (n ≤ max_pairs) }
    ensures { result ≡ levels n }
{
    if n <= 1 {
        return 1;
    }
    count_levels(n.div_ceil(2)) + 1
}
