// The machine of a sheet.
ghost use Rattle.std.specs.Prelude.{◌≡◌, true, MatchOption};
ghost use Rattle.events.specs.Steps.{fits, line_in, within, Begun};

use frame::read::Order;
use jumper::limits::MAX_PAIRS;

// The open line: its header, and how many columns of each row are in the lent rows.
#[derive(Clone, Copy, Debug, PartialEq, Eq)]
pub struct OpenLine {
    pub order: Order,
    pub bottom: usize,
    pub top: usize,
}

#[derive(Clone, Copy, Debug, PartialEq, Eq)]
pub enum Phase {
    Ready,
    Inside(OpenLine),
    Skipping,
}

// The line numbers that good headers had are bits of `seen`.
#[derive(Clone, Copy, Debug, PartialEq, Eq)]
pub struct Machine {
    pub phase: Phase,
    pub seen: u64,
}

// Of a sheet of which nothing was taken in.
pub fn fresh() -> Machine
    ensures { Begun result }
{
    Machine {
        phase: Phase::Ready,
        seen: 0,
    }
}

// Whether the counts can be: an open line that no call made may have any.
#[tactic(auto, unfolding(crate::specs::Steps::fits))]
fn fits(line: OpenLine) -> bool
    ensures { result ≡ fits line }
{
    let pairs = line.order.pairs;
    line.bottom <= pairs && line.top <= pairs && pairs <= MAX_PAIRS
}

// A machine inside a line: the open line, whose counts can be, and the line numbers seen.
#[derive(Clone, Copy)]
pub(crate) struct Within {
    pub(crate) line: OpenLine,
    pub(crate) seen: u64,
    ghost held: { fits line ≡ true },
}

impl Machine {
    #[tactic(auto, unfolding(crate::specs::Steps::fits, crate::specs::Steps::line_in))]
    pub(crate) fn within(self) -> Option<Within>
        ensures { MatchOption result (line_in self.phase ≡ None) (λ w. self ≡ within w.line w.seen) }
    {
        match self.phase {
            Phase::Inside(line) if fits(line) => Some(Within {
                line,
                seen: self.seen,
            }),
            _ => None,
        }
    }
}
