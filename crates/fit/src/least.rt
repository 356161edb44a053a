// The least separation at an offset.
ghost use Rattle.std.specs.Prelude.{◌≡◌, Ok};
ghost use Rattle.fit.specs.Least.{told, LeastAnswer};

use crate::misfit::{Misfit, misfit_from};
use jumper::asked::Question;
use jumper::refusal::{Numbers, Refusal};
use jumper::serves::tracks_for;

// The least separation, and above 0 the witness at one track fewer. At separation 0 every top pad stands straight above its bottom pad, and there is none.
#[derive(Clone, Copy, Debug, PartialEq, Eq, Hash)]
pub struct Least {
    pub separation: usize,
    pub witness: Option<Misfit>,
}

impl From<Least> for Numbers {
    ghost from_gives = { λ least n. n ≡ told least };

    fn from(least: Least) -> Numbers {
        let (pair, side) = match least.witness {
            Some(m) => (m.pair, u8::from(m.side)),
            None => (0, 0),
        };
        Numbers {
            separation: least.separation,
            pair,
            side,
            ..Numbers::NOTHING
        }
    }
}

// The least separation at which a legal wiring exists at offset d: refusals 1 to 5, then 7. Separation 0, where the search begins, is accepted.
pub fn least_at(a: &[i32], b: &[i32], d: i32) -> Result<Least, Refusal>
    ensures { LeastAnswer a.now b.now d result }
{
    Ok(seek_least(Question::check(a, b, 0, d)?))
}

// One pass over the pairs (003, theorem 3): at each misfit the rule is read one further on. The pairs before it stay free, and the last misfit is the
// witness at one track fewer.
fn seek_least(q: Question<'_>) -> Least
    ensures { LeastAnswer q.entry.rows.bottom.now q.entry.rows.top.now q.entry.offset (Ok result) }
{
    let mut s: usize = 0;
    let mut witness: Option<Misfit> = None;
    while let Some(m) = misfit_from(q, s, witness.map_or(0, |m| m.pair)) {
        s += 1;
        witness = Some(m);
    }
    Least {
        separation: tracks_for(s),
        witness,
    }
}
