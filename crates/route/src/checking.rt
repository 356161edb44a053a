// Checking any table of columns: whether the wires that it means are a legal wiring, and if not, the first fault by track, then wire.
ghost use Rattle.std.specs.Prelude.{◌≡◌, true, not, cond, ◌↔◌, ◌+◌, ◌*◌, ◌≤◌, ◌<◌, ℕ, length, ◌<ℤ◌, MatchOption};
ghost use Rattle.std.specs.Int.Signed.{lt_z};
ghost use Rattle.whole.specs.Pick.{larger_of, smaller_of};
ghost use Rattle.wiring.specs.Wiring.{pad};
ghost use Rattle.jumper.specs.Limits.{max_tracks};
ghost use Rattle.route.specs.Check.{rightmost, leftmost, RunsApart, start_wrong, end_wrong, steps_aside, run_touches, first_fault, RouteCheck};
ghost use Rattle.route.specs.Asked.{pairs, bottom, top, entered, faults, ends_wrong, FirstWire, Clear, Faultless};

use crate::column::top_pad;
use crate::drawing::places;
use jumper::asked::Question;
use jumper::refusal::Refusal;

// Refusals 1 to 7, BUFFER, then BADWIRE. Any columns are taken; NOFIT isn't tested.
pub fn check_route(a: &[i32], b: &[i32], s: usize, d: i32, table: &[i32]) -> Result<(), Refusal>
    ensures { RouteCheck a.now b.now s d table.now result }
{
    let asked = Question::check(a, b, s, d)?;
    if table.len() < places(a.len(), s) {
        return Err(Refusal::Buffer);
    }
    let table = Table {
        asked,
        columns: table,
    };
    if table.is_faultless() {
        return Ok(());
    }
    table.first_fault()
}

// A table of columns, s + 1 for each wire and wire after wire, as it is asked whether it is a route. It has room for all wires.
#[derive(Clone, Copy)]
struct Table<'a> {
    asked: Question<'a>,
    columns: &'a [i32],
    ghost room: { length asked.rows.bottom.now * (asked.separation + 1) ≤ length columns.now },
}

impl<'a> Table<'a> {
    fn wire(self, i: usize) -> TableWire<'a>
        requires { i < pairs self.asked }
        ensures { (result.table ≡ self.entry) × (result.wire ≡ i) }
    {
        TableWire {
            table: self,
            wire: i,
        }
    }

    // The first wire with a fault on track t.
    fn wire_fault(self, t: usize) -> Option<usize>
        ensures { FirstWire (faults self.entry.asked self.entry.columns.now t) t (pairs self.entry.asked) result }
    {
        (0..self.asked.rows.bottom.len()).find(|&i| self.wire(i).fault_at(t))
    }

    // The first fault by track, then wire.
    fn first_fault(self) -> Result<(), Refusal>
        ensures { let q = self.entry.asked in result ≡ first_fault q.rows.bottom.now q.rows.top.now q.separation q.offset self.entry.columns.now }
    {
        for t in 0..=self.asked.separation {
            if let Some(i) = self.wire_fault(t) {
                return Err(Refusal::BadWire(i, t));
            }
        }
        Ok(())
    }

    // Whether wire i has no fault on any track.
    fn is_clear(self, i: usize) -> bool
        requires { i < pairs self.asked }
        ensures { (result ≡ true) ↔ Clear self.entry.asked self.entry.columns.now i }
    {
        let wire = self.wire(i);
        if !wire.ends_right() {
            return false;
        }
        match wire.next() {
            Some(next) => runs_apart(wire.columns(), next.columns(), self.asked.separation),
            None => true,
        }
    }

    // Whether there is no fault at all, wire by wire as the table lies in memory. The search, which goes by track, is left to tables that have one.
    fn is_faultless(self) -> bool
        ensures { (result ≡ true) ↔ Faultless self.entry.asked self.entry.columns.now }
    {
        (0..self.asked.rows.bottom.len()).all(|i| self.is_clear(i))
    }
}

// One of its wires.
#[derive(Clone, Copy)]
struct TableWire<'a> {
    table: Table<'a>,
    wire: usize,
    ghost inside: { wire < length table.asked.rows.bottom.now },
}

impl<'a> TableWire<'a> {
    // The columns on which it enters tracks 0 to s.
    fn columns(self) -> &'a [i32]
        ensures len { length result.now ≡ self.entry.table.asked.separation + 1 }
        ensures columns { let q = self.entry.table.asked in
            (t : ℕ) → t ≤ q.separation → pad result.now t ≡ entered q self.entry.table.columns.now self.entry.wire t }
    {
        let s = self.table.asked.separation;
        let at = places(self.wire, s);
        &self.table.columns[at..at + s + 1]
    }

    // The leftmost and the rightmost column of its run on track t.
    fn run(self, t: usize) -> (i32, i32)
        requires { t < self.table.asked.separation }
        ensures { let e = entered self.entry.table.asked self.entry.table.columns.now in
            (result.0 ≡ leftmost e self.entry.wire t) × (result.1 ≡ rightmost e self.entry.wire t) }
    {
        let columns = self.columns();
        let (enters, leaves) = (columns[t], columns[t + 1]);
        (enters.min(leaves), enters.max(leaves))
    }

    #[tactic(auto, unfolding(crate::specs::Check::start_wrong))]
    fn start_wrong(self, t: usize) -> bool
        ensures { result ≡ start_wrong (bottom self.entry.table.asked) (entered self.entry.table.asked self.entry.table.columns.now) t self.entry.wire }
    {
        t == 0 && self.columns()[0] != self.table.asked.rows.bottom[self.wire]
    }

    #[tactic(auto, unfolding(crate::specs::Check::end_wrong))]
    fn end_wrong(self, t: usize) -> bool
        ensures { let q = self.entry.table.asked in result ≡ end_wrong q.separation (top q) (entered q self.entry.table.columns.now) t self.entry.wire }
    {
        t == self.table.asked.separation
            && self.columns()[t] != top_pad(self.table.asked, self.wire)
    }

    #[tactic(auto, unfolding(crate::specs::Check::steps_aside))]
    fn steps_aside(self, t: usize) -> bool
        ensures { let q = self.entry.table.asked in result ≡ steps_aside q.separation (entered q self.entry.table.columns.now) t self.entry.wire }
    {
        t == 0 && 0 < self.table.asked.separation && self.columns()[1] != self.columns()[0]
    }

    // The wire to its right.
    fn next(self) -> Option<TableWire<'a>>
        ensures { MatchOption result (self.entry.wire + 1 ≡ pairs self.entry.table.asked) (λ w. (w.table ≡ self.entry.table) × (w.wire ≡ self.entry.wire + 1)) }
    {
        if self.wire + 1 < self.table.asked.rows.bottom.len() {
            return Some(self.table.wire(self.wire + 1));
        }
        None
    }

    #[tactic(auto, unfolding(crate::specs::Check::run_touches))]
    fn run_touches(self, t: usize) -> bool
        ensures { let q = self.entry.table.asked in result ≡ run_touches (pairs q) q.separation (entered q self.entry.table.columns.now) t self.entry.wire }
    {
        if t < self.table.asked.separation
            && let Some(next) = self.next()
        {
            return next.run(t).0 <= self.run(t).1;
        }
        false
    }

    #[tactic(auto, unfolding(crate::specs::Check::fault_at))]
    fn fault_at(self, t: usize) -> bool
        ensures { result ≡ faults self.entry.table.asked self.entry.table.columns.now t self.entry.wire }
    {
        self.start_wrong(t) || self.end_wrong(t) || self.steps_aside(t) || self.run_touches(t)
    }

    // Whether it starts and ends on its pads, and leaves the lower one straight up.
    fn ends_right(self) -> bool
        ensures { let q = self.entry.table.asked in
            result ≡ not (ends_wrong q.separation (bottom q) (top q) (entered q self.entry.table.columns.now) self.entry.wire) }
    {
        !(self.start_wrong(0) || self.end_wrong(self.table.asked.separation) || self.steps_aside(0))
    }
}

// 1 where column x is not to the left of column y, else 0.
fn not_left(x: i32, y: i32) -> u32
    ensures { (result ≤ 1) × (result ≡ cond (lt_z x y) 0 1) }
{
    u32::from(y <= x)
}

// How many of the four pairs of ends of two runs, one from column p to p2 and the next wire's from q to q2, are out of order: none where the first is wholly to
// the left. Four comparisons, added up, are quicker than the ends of the runs.
fn touch(p: i32, p2: i32, q: i32, q2: i32) -> u32
    ensures { (result ≤ 4) × ((result ≡ 0) ↔ (larger_of p p2 <ℤ smaller_of q q2)) }
{
    not_left(p, q) + not_left(p, q2) + not_left(p2, q) + not_left(p2, q2)
}

// Whether a wire's run is wholly to the left of its neighbour's on each track below s. It counts, and doesn't stop at the first fault: the loop has no branch.
fn runs_apart(p: &[i32], q: &[i32], s: usize) -> bool
    requires { (s ≤ max_tracks) × (s < length p.now) × (s < length q.now) }
    ensures { (result ≡ true) ↔ RunsApart (pad p.now) (pad q.now) s }
{
    let mut count: u32 = 0;
    for t in 0..s {
        count += touch(p[t], p[t + 1], q[t], q[t + 1]);
    }
    count == 0
}
