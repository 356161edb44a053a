// The answer to a wish for two rows, in all its numbers. The form and the sheet both ask here.
ghost use Rattle.plan.specs.Plan.{PlanAnswer};

use crate::wish::Wish;
use best::plan::best_of;
use fit::least::least_at;
use fit::misfit::fit;
use fit::offsets::range_at;
use jumper::limits::MAX_LADDER;
use jumper::range::OffsetRange;
use jumper::refusal::Numbers;

// What the wish names itself, a separation or an offset, is told with what was found. The ladder isn't asked for: it goes into a buffer of this call's own,
// which has room for the longest. The arms hand the numbers out as they make them: a Result of numbers, for `?`, is copied twice, and a short line feels it.
pub fn plan(wish: Wish, a: &[i32], b: &[i32]) -> Numbers
    ensures { PlanAnswer wish a.now b.now result }
{
    match wish {
        Wish::Fit(s, d) => match fit(a, b, s, d) {
            Ok(()) => Numbers {
                separation: s,
                ..Numbers::from(OffsetRange { low: d, high: d })
            },
            Err(r) => Numbers::from(r),
        },
        Wish::Least(d) => match least_at(a, b, d) {
            Ok(least) => Numbers {
                lowest: d,
                highest: d,
                ..Numbers::from(least)
            },
            Err(r) => Numbers::from(r),
        },
        Wish::Range(s) => match range_at(a, b, s) {
            Ok(range) => Numbers {
                separation: s,
                ..Numbers::from(range)
            },
            Err(r) => Numbers::from(r),
        },
        Wish::Best => {
            let mut ladder = [0; MAX_LADDER];
            Numbers::from(best_of(a, b, &mut ladder))
        }
    }
}
