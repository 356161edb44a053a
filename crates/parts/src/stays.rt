// Which pairs stay: a lent row of bytes, one a pair, 0 for a pair that is dropped and anything else for one that stays. And the checks of a part.
ghost use Rattle.std.specs.Prelude.{◌≡◌, Err, IfOk, IfErr, eqb, length};
ghost use Rattle.parts.specs.Stays.{kept, check_part, AskedPart};
ghost use Rattle.parts.specs.Routed.{places_kept};

use jumper::asked::Question;
use jumper::refusal::Refusal;

// How many pairs stay: counted without a branch, so that many bytes are looked at at a time.
#[tactic(auto, using(crate::proofs::Keeping::kept_none, crate::proofs::Keeping::kept_few, crate::proofs::Keeping::kept_more))]
fn pairs_kept(stays: &[u8]) -> usize
    ensures { result ≡ length (kept stays.now) }
{
    let mut kept = 0;
    for &stay in stays {
        kept += usize::from(stay != 0);
    }
    kept
}

// Whether no pair stays. It stops at the first that does, where counting them would read all bytes.
fn none_stays(stays: &[u8]) -> bool
    ensures { result ≡ eqb (length (kept stays.now)) 0 }
{
    stays.iter().all(|&stay| stay == 0)
}

// An accepted question with a byte for each pair, of which one at least stays. Only `check` makes it.
#[derive(Clone, Copy)]
pub(crate) struct Part<'a> {
    pub question: Question<'a>,
    pub stays: &'a [u8],
    ghost asked: { AskedPart question.rows.bottom.now question.rows.top.now stays.now question.separation question.offset },
}

impl<'a> Part<'a> {
    // Refusals 1 to 7, by number: UNEQUAL and EMPTY speak of the bytes too, all others of the whole rows.
    pub(crate) fn check(
        a: &'a [i32],
        b: &'a [i32],
        stays: &'a [u8],
        s: usize,
        d: i32,
    ) -> Result<Part<'a>, Refusal>
        ensures ok { IfOk result (λ p. (p.question.rows.bottom.now ≡ a.now) × (p.question.rows.top.now ≡ b.now)
            × (p.stays.now ≡ stays.now) × (p.question.separation ≡ s) × (p.question.offset ≡ d)) }
        ensures err { IfErr result (λ r. check_part a.now b.now stays.now s d ≡ Err r) }
    {
        if a.len() != b.len() || a.len() != stays.len() {
            return Err(Refusal::Unequal);
        }
        if none_stays(stays) {
            return Err(Refusal::Empty);
        }
        let question = Question::check(a, b, s, d)?;
        Ok(Part { question, stays })
    }

    // How many places the part's route takes, of all its wires.
    pub(crate) fn places(self) -> usize
        ensures { result ≡ places_kept self.entry.stays.now self.entry.question.separation }
    {
        pairs_kept(self.stays) * (self.question.separation + 1)
    }
}
