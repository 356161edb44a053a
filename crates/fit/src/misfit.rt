// The witness of a misfit, and the question whether a separation and an offset fit.
ghost use Rattle.std.specs.Prelude.{◌≡◌, ◌+◌, ◌-◌, ◌≤◌, ◌<◌, length};
ghost use Rattle.wiring.specs.Fit.{lean_of};
ghost use Rattle.wiring.specs.Tracks.{rule_at};
ghost use Rattle.fit.specs.Misfit.{side_broken, misfit_from, misfit_of, FitAnswer};

use crate::offsets::range_of;
use jumper::asked::Question;
use jumper::refusal::{Refusal, Side};
use jumper::serves::rule_at;

// The least pair that breaks the rule of fit, and on which side.
#[derive(Clone, Copy, Debug, PartialEq, Eq, Hash)]
pub struct Misfit {
    pub pair: usize,
    pub side: Side,
}

// On which side pair i breaks the rule, if it does. Here and in the search s is the number at which the rule is read.
#[tactic(auto, using(crate::proofs::Ends::tests))]
fn side_broken(q: Question<'_>, s: usize, i: usize) -> Option<Side>
    requires { i + s < length q.rows.bottom.now }
    ensures { result ≡ side_broken (lean_of q.entry.rows.bottom.now) (lean_of q.entry.rows.top.now) s q.entry.offset i }
{
    let a = q.rows.bottom;
    let b = q.rows.top;
    if a[i + s] < b[i] + q.offset + s as i32 {
        Some(Side::Right)
    } else if b[i + s] + q.offset < a[i] + s as i32 {
        Some(Side::Left)
    } else {
        None
    }
}

// The search for the least misfit from pair `from` on: it serves `fit`, the least separation and its witness, and the stretch.
#[tactic(auto, using(crate::proofs::Misfits::free_here, crate::proofs::Misfits::at_end_lem))]
pub(crate) fn misfit_from(q: Question<'_>, s: usize, from: usize) -> Option<Misfit>
    requires { from ≤ length q.rows.bottom.now }
    ensures { let a = q.entry.rows.bottom.now in result ≡ misfit_from (lean_of a) (lean_of q.entry.rows.top.now) s q.entry.offset from (length a - s - from) }
{
    for i in from..q.rows.bottom.len().saturating_sub(s) {
        if let Some(side) = side_broken(q, s, i) {
            return Some(Misfit { pair: i, side });
        }
    }
    None
}

// The least misfit: none where the offset is in the range of the separation, which is quick to read; else it is sought. It is inlined, since a question that
// is passed on goes through memory.
#[inline]
pub(crate) fn first_misfit(q: Question<'_>) -> Option<Misfit>
    ensures { result ≡ misfit_of q.entry.rows.bottom.now q.entry.rows.top.now (rule_at q.entry.separation) q.entry.offset }
{
    let s = rule_at(q.separation);
    if q.rows.bottom.len() <= s {
        return None;
    }
    if range_of(q.rows, s).contains(q.offset) {
        return None;
    }
    misfit_from(q, s, 0)
}

// Whether a legal wiring exists at separation s and offset d: refusals 1 to 7, then NOFIT.
pub fn fit(a: &[i32], b: &[i32], s: usize, d: i32) -> Result<(), Refusal>
    ensures { FitAnswer a.now b.now s d result }
{
    match first_misfit(Question::check(a, b, s, d)?) {
        None => Ok(()),
        Some(m) => Err(Refusal::NoFit(m.pair, m.side)),
    }
}
