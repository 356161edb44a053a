// The row check (01, refusals 1 to 5).
ghost use Rattle.std.specs.Prelude.{◌≡◌, true, ◌≤◌, ◌<◌, length, Err, IfOk, IfErr};
ghost use Rattle.wiring.specs.Wiring.{pad};
ghost use Rattle.wiring.specs.Fit.{Rising};
ghost use Rattle.jumper.specs.Limits.{max_pairs};
ghost use Rattle.jumper.specs.Rows.{AcceptedRow, AcceptedRows, row_fault, check_rows, RowCheck};

use crate::limits::{FIRST_COLUMN, LAST_COLUMN, MAX_PAIRS};
use crate::refusal::Refusal;

// A row that is to be checked, neither empty nor too long, and the place of its first column.
#[derive(Clone, Copy)]
struct Row<'a> {
    pads: &'a [i32],
    place: usize,
    ghost some: { 0 < length pads.now },
    ghost few: { length pads.now ≤ max_pairs },
    ghost placed: { place ≤ max_pairs },
}

impl<'a> Row<'a> {
    // Whether each column is below the next one. There is no early exit, so many columns are compared at a time: most rows are sound, and this pass
    // is all they cost. Those that are below the next are counted, since "below" is what vector code can compare.
    fn rises(&self) -> bool
        ensures { result ≡ true → Rising (length self.now.pads.now) (pad self.now.pads.now) }
    {
        let last = self.pads.len() - 1;
        let mut rises: u32 = 0;
        for i in 0..last {
            if self.pads[i] < self.pads[i + 1] {
                rises += 1;
            }
        }
        rises == last as u32
    }

    // Whether the row rises from an accepted column to an accepted column.
    fn is_faultless(&self) -> bool
        ensures { result ≡ true → AcceptedRow self.now.pads.now }
    {
        let last = self.pads.len() - 1;
        self.rises() && FIRST_COLUMN <= self.pads[0] && self.pads[last] <= LAST_COLUMN
    }

    // The search for the first fault. `before` begins one left of the first column and is in range from then on; so a column above it isn't left of the first,
    // and a sound column costs two comparisons.
    fn seek_fault(&self) -> Result<(), Refusal>
        ensures { result ≡ row_fault self.now.place self.now.pads.now }
    {
        let mut before: i32 = FIRST_COLUMN - 1;
        for (i, &x) in self.pads.iter().enumerate() {
            if LAST_COLUMN < x {
                return Err(Refusal::Column(self.place + i));
            }
            if x <= before {
                if x < FIRST_COLUMN {
                    return Err(Refusal::Column(self.place + i));
                }
                return Err(Refusal::Order(self.place + i));
            }
            before = x;
        }
        Ok(())
    }

    // The first fault: none if the row is sound, else it is sought.
    #[tactic(auto, using(crate::proofs::Accepted::of_row_fault))]
    fn fault(&self) -> Result<(), Refusal>
        ensures { result ≡ row_fault self.now.place self.now.pads.now }
    {
        if self.is_faultless() {
            return Ok(());
        }
        self.seek_fault()
    }
}

// Both rows: UNEQUAL, EMPTY, LONG, then the first fault of the bottom row, then of the top row.
pub fn check_rows(a: &[i32], b: &[i32]) -> Result<(), Refusal>
    ensures { RowCheck a.now b.now result }
{
    let n = a.len();
    if n != b.len() {
        return Err(Refusal::Unequal);
    }
    if n == 0 {
        return Err(Refusal::Empty);
    }
    if MAX_PAIRS < n {
        return Err(Refusal::Long);
    }
    let bottom = Row { pads: a, place: 0 };
    let top = Row { pads: b, place: n };
    bottom.fault()?;
    top.fault()
}

// Two rows that are accepted: whoever makes them shows it, `check` by asking, and what takes them needn't ask again.
#[derive(Clone, Copy)]
pub struct Rows<'a> {
    pub bottom: &'a [i32],
    pub top: &'a [i32],
    ghost accepted: { AcceptedRows bottom.now top.now },
}

impl<'a> Rows<'a> {
    pub fn check(a: &'a [i32], b: &'a [i32]) -> Result<Rows<'a>, Refusal>
        ensures ok { IfOk result (λ rows. (rows.bottom.now ≡ a.now) × (rows.top.now ≡ b.now)) }
        ensures err { IfErr result (λ r. check_rows a.now b.now ≡ Err r) }
    {
        check_rows(a, b)?;
        Ok(Rows { bottom: a, top: b })
    }
}
