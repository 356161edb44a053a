// Whether the kept record of a jumper still serves the part with some of its pads bare.
ghost use Rattle.fit.specs.Misfit.{FitAnswer};
ghost use Rattle.parts.specs.Stays.{row_kept};
ghost use Rattle.parts.specs.Still.{StillAnswer};

use crate::keep::keep_pads;
use crate::stays::Part;
use fit::misfit::fit;
use jumper::limits::MAX_PAIRS;
use jumper::refusal::Refusal;

// The question of `fit`, asked of the pairs that stay: refusals 1 to 7 of the whole rows and of the bytes, then NOFIT, its pads numbered in the part.
pub fn still_fits(a: &[i32], b: &[i32], stays: &[u8], s: usize, d: i32) -> Result<(), Refusal>
    ensures { StillAnswer a.now b.now stays.now s d result }
{
    fit_part(Part::check(a, b, stays, s, d)?)
}

// The pads that stay, written side by side into memory of our own, are rows like any others.
fn fit_part(part: Part<'_>) -> Result<(), Refusal>
    ensures { FitAnswer (row_kept part.entry.stays.now part.entry.question.rows.bottom.now) (row_kept part.entry.stays.now part.entry.question.rows.top.now)
        part.entry.question.separation part.entry.question.offset result }
{
    let asked = part.question;
    let mut bottom = [0; MAX_PAIRS];
    let mut top = [0; MAX_PAIRS];
    let below = keep_pads(asked.rows.bottom, part.stays, &mut bottom);
    let above = keep_pads(asked.rows.top, part.stays, &mut top);
    fit(below, above, asked.separation, asked.offset)
}
