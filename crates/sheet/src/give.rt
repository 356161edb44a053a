// What is still to write, into a lent buffer.
ghost use Rattle.std.specs.Prelude.{◌≡◌};
ghost use Rattle.sheet.specs.Owes.{cut_text, due_text, Given};
ghost use Rattle.sheet.specs.Parts.{AnswerGiven};

use crate::state::{Route, State, show};
use frame::write::{Answer, put_answer};
use jumper::limits::MAX_PAIRS;
use jumper::refusal::{Numbers, Refusal};
use route::moves::give_moves;

// A state, and the place after what was written.
#[derive(Clone, Copy, Debug, PartialEq, Eq)]
pub struct Giving {
    pub s: State,
    pub n: usize,
}

// The 20 of a line that was cut off.
#[tactic(auto, unfolding(crate::specs::Machine::refusal_text))]
fn cut_answer(cut: Option<u8>) -> Option<Answer>
    ensures { due_text result ≡ cut_text cut }
{
    cut.map(|line| show(line, Numbers::from(Refusal::Sequence)))
}

// A frame 20, if there is one, written from place `at` of the buffer on: the place after it, none where it has no room.
#[tactic(auto, using(crate::proofs::Gives::answer_full, crate::proofs::Gives::answer_put))]
fn give_answer(k: Option<Answer>, out: &mut [u8], at: usize) -> Option<usize>
    ensures { AnswerGiven k out.old at result out.new }
{
    let Some(k) = k else {
        return Some(at);
    };
    let p = put_answer(out, at, k);
    if p == at { None } else { Some(p) }
}

// Writes what is still to write from place `at` of the buffer on, as far as it has room for whole frames.
pub fn give(
    a: &[i32; MAX_PAIRS],
    b: &[i32; MAX_PAIRS],
    mut s: State,
    out: &mut [u8],
    at: usize,
) -> Giving
    ensures { Given s a.now b.now out.old at result.s result.n out.new }
{
    let Some(p) = give_answer(cut_answer(s.cut), out, at) else {
        return Giving { s, n: at };
    };
    s.cut = None;
    let Some(q) = give_answer(s.due, out, p) else {
        return Giving { s, n: p };
    };
    s.due = None;
    match s.route {
        Some(r) if r.wires <= MAX_PAIRS => {
            let m = give_moves(
                &a[..r.wires],
                &b[..r.wires],
                r.line,
                r.separation,
                r.offset,
                r.wire,
                r.track,
                out,
                q,
            );
            s.route = Some(Route {
                wire: m.wire,
                track: m.track,
                ..r
            });
            Giving { s, n: m.at }
        }
        _ => Giving { s, n: q },
    }
}
