// The state of a sheet, and the states that it goes to.
ghost use Rattle.std.specs.Prelude.{◌≡◌};
ghost use Rattle.sheet.specs.Machine.{shown};
ghost use Rattle.sheet.specs.Steps.{owing, complete, after};
ghost use Rattle.sheet.specs.Owes.{Fresh, Busy};

use events::machine::Machine;
use events::step::{Did, Step};
use frame::read::Order;
use frame::write::Answer;
use jumper::limits::MAX_PAIRS;
use jumper::refusal::Numbers;

// The rest of a route, as frames 21 of a line: drawn at this separation and offset through the first `wires` columns of the lent rows, from `wire` and
// its `track` on.
#[derive(Clone, Copy, Debug, PartialEq, Eq)]
pub struct Route {
    pub line: u8,
    pub separation: usize,
    pub offset: i32,
    pub wires: usize,
    pub wire: usize,
    pub track: usize,
}

// The first `at` places of the lent line hold the text of the current line; the rows of the machine's open line are lent too. Still to write, in this
// order: a 20 with SEQUENCE for the line that a header `cut` off; the 20 that is `due`; a `route`.
#[derive(Clone, Copy, Debug, PartialEq, Eq)]
pub struct State {
    pub at: usize,
    pub machine: Machine,
    pub cut: Option<u8>,
    pub due: Option<Answer>,
    pub route: Option<Route>,
}

// A sheet of which nothing was taken in.
#[tactic(auto, using(crate::proofs::Steps::fresh_owes), unfolding(crate::specs::Owes::pending, crate::specs::Owes::left_text))]
pub fn fresh() -> State
    ensures { Fresh result }
{
    State {
        at: 0,
        machine: events::machine::fresh(),
        cut: None,
        due: None,
        route: None,
    }
}

// The 20 of a line.
pub(crate) fn show(line: u8, k: Numbers) -> Answer
    ensures { result ≡ shown line k }
{
    Answer {
        line,
        refusal: k.refusal,
        separation: k.separation,
        lowest: k.lowest,
        highest: k.highest,
        pair: k.pair,
        side: k.side,
    }
}

impl State {
    // After a step: the 20 of a line that it cut off is to be written, a 20 and a route.
    fn owe(&mut self, t: Step, due: Option<Answer>, route: Option<Route>)
        ensures { self.new ≡ owing t due route }
    {
        self.at = 0;
        self.machine = t.machine;
        self.cut = t.cut;
        self.due = due;
        self.route = route;
    }

    // What a step calls for that completes no line.
    pub(crate) fn take_step(&mut self, t: Step)
        ensures { self.new ≡ after t }
    {
        match t.did {
            Did::Refused(line, r) => self.owe(t, Some(show(line, Numbers::from(r))), None),
            _ => self.owe(t, None, None),
        }
    }

    // What a complete line is answered: its 20, and its route if it isn't refused.
    pub(crate) fn complete(&mut self, t: Step, o: Order, k: Numbers)
        ensures { self.new ≡ complete t o k }
    {
        let route = Route {
            line: o.line,
            separation: k.separation,
            offset: k.lowest,
            wires: o.pairs,
            wire: 0,
            track: 0,
        };
        self.owe(t, Some(show(o.line, k)), (k.refusal == 0).then_some(route));
    }
}

// Whether anything may be left to write. If not, nothing is owed but what the rest of the sheet brings.
#[tactic(auto, using(crate::proofs::Steps::busy_told), unfolding(crate::specs::Owes::is_busy))]
pub fn busy(s: State) -> bool
    ensures { Busy s result }
{
    s.cut.is_some()
        || s.due.is_some()
        || s.route
            .is_some_and(|r| r.wires <= MAX_PAIRS && r.wire < r.wires)
}
