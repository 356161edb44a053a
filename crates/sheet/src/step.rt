// A whole line of text taken in, where nothing is to be written: what the machine tells of it, turned into what is to be written.
ghost use Rattle.frame.specs.Frame.{text_frame};
ghost use Rattle.sheet.specs.Parts.{Reacted};

use crate::planned::plan_first;
use crate::state::State;
use events::step::{Did, on_text};
use jumper::limits::MAX_PAIRS;

// A whole line, by its text: all before its line feed.
#[tactic(auto, using(crate::proofs::Steps::plain_reacted, crate::proofs::Steps::completes_reacted))]
pub(crate) fn take_text(
    text: &[u8],
    a: &mut [i32; MAX_PAIRS],
    b: &mut [i32; MAX_PAIRS],
    s: &mut State,
)
    ensures { Reacted s.old a.old b.old (text_frame text.now) s.new a.new b.new }
{
    let t = on_text(text, a, b, s.machine);
    match t.did {
        Did::Completed(o) => s.complete(t, o, plan_first(a, b, o)),
        _ => s.take_step(t),
    }
}
