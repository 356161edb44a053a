// A whole line of text taken in (01's machine): what it does.
ghost use Rattle.std.specs.Prelude.{◌≡◌, List, ◌≤◌, length, MatchResult, ℤ};
ghost use Rattle.frame.specs.Frame.{bad, text_frame};
ghost use Rattle.jumper.specs.Limits.{max_pairs};
ghost use Rattle.events.specs.Events.{opens, refuses, passes, headed, is_next};
ghost use Rattle.events.specs.Steps.{has_line, seen_by, seen_with, with_line, machine_at, within, step_to, cut_off, step_of, Stepped, Ended};
ghost use Rattle.events.specs.Parts.{missed, outside_event, framed, count_said, RowFilled, BottomPut, TopPut};

use crate::machine::{Machine, OpenLine, Phase, Within};
use crate::seen::{has_line, with_line};
use frame::read::{Order, Said, read_text};
use jumper::limits::{MAX_LINES, MAX_PAIRS};
use jumper::refusal::Refusal;

// Line FF: no line is open.
const NO_LINE: u8 = 255;

// What a frame did. The rows of the open line, or of the complete one, are the first columns of the lent rows.
#[derive(Clone, Copy, Debug, PartialEq, Eq)]
pub enum Did {
    Opened,
    Filled,
    Completed(Order),
    Refused(u8, Refusal),
    Passed,
}

// The machine after a frame, and what the frame did; if it was a header inside a line, the line that it cut off first.
#[derive(Clone, Copy, Debug, PartialEq, Eq)]
pub struct Step {
    pub machine: Machine,
    pub cut: Option<u8>,
    pub did: Did,
}

fn go(phase: Phase, seen: u64, did: Did) -> Step
    ensures { result ≡ step_to (machine_at phase seen) did }
{
    Step {
        machine: Machine { phase, seen },
        cut: None,
        did,
    }
}

fn refuse(line: u8, r: Refusal, seen: u64) -> Step
    ensures { result ≡ step_of (refuses line r) seen }
{
    go(Phase::Skipping, seen, Did::Refused(line, r))
}

fn pass(seen: u64) -> Step
    ensures { result ≡ step_of passes seen }
{
    go(Phase::Skipping, seen, Did::Passed)
}

// Whether a good header opens its line, where these line numbers were seen before.
#[tactic(auto, unfolding(crate::specs::Events::headed))]
fn check_header(seen: u64, o: Order) -> Result<(), Refusal>
    ensures { MatchResult result (λ _. headed (has_line seen) o ≡ opens o) (λ r. headed (has_line seen) o ≡ refuses o.line r) }
{
    if MAX_LINES <= usize::from(o.line) {
        return Err(Refusal::Line);
    }
    if has_line(seen, o.line) {
        return Err(Refusal::Twice);
    }
    if o.pairs == 0 {
        return Err(Refusal::Empty);
    }
    if MAX_PAIRS < o.pairs {
        return Err(Refusal::Long);
    }
    Ok(())
}

// A good header: refused, or its line is open.
fn head(before: u64, o: Order) -> Step
    ensures { result ≡ step_of (headed (has_line before) o) (with_line before o.line) }
{
    let seen = with_line(before, o.line);
    if let Err(r) = check_header(before, o) {
        return refuse(o.line, r, seen);
    }
    let line = OpenLine {
        order: o,
        bottom: 0,
        top: 0,
    };
    go(Phase::Inside(line), seen, Did::Opened)
}

// A frame that isn't a header, outside of a line.
fn miss(m: Machine, r: Refusal) -> Step
    ensures { result ≡ step_of (missed m.phase r) m.seen }
{
    match m.phase {
        Phase::Ready => refuse(NO_LINE, r, m.seen),
        _ => pass(m.seen),
    }
}

fn on_outside(m: Machine, said: Option<Said>) -> Step
    ensures { result ≡ step_of (outside_event m.phase (seen_by m) said) (seen_with m.seen said) }
{
    match said {
        Some(Said::Header(o)) => head(m.seen, o),
        Some(_) => miss(m, Refusal::Sequence),
        None => miss(m, Refusal::Frame),
    }
}

// Columns for a line go into a row of the open line that has some already, if they are next in it: how many it has then.
#[tactic(auto, unfolding(crate::specs::Events::is_next))]
fn fill(
    columns: &[i32],
    row: &mut [i32; MAX_PAIRS],
    order: Order,
    have: usize,
    line: u8,
) -> Option<usize>
    requires { (have ≤ order.pairs) × (order.pairs ≤ max_pairs) }
    ensures { RowFilled order have line columns.now row.old result row.new }
{
    if line != order.line || order.pairs - have < columns.len() {
        return None;
    }
    let n = have + columns.len();
    row[have..n].copy_from_slice(columns);
    Some(n)
}

// The open line is refused.
fn refuse_open(w: Within, r: Refusal) -> Step
    ensures { result ≡ step_of (refuses w.line.order.line r) w.seen }
{
    refuse(w.line.order.line, r, w.seen)
}

fn on_bottom(columns: &[i32], a: &mut [i32; MAX_PAIRS], w: Within, line: u8) -> Step
    ensures { (b : List ℤ) → length b ≡ w.line.top → BottomPut w.line w.seen columns.now a.old b line result a.new }
{
    match fill(columns, a, w.line.order, w.line.bottom, line) {
        Some(bottom) => go(
            Phase::Inside(OpenLine { bottom, ..w.line }),
            w.seen,
            Did::Filled,
        ),
        None => refuse_open(w, Refusal::Sequence),
    }
}

fn on_top(columns: &[i32], b: &mut [i32; MAX_PAIRS], w: Within, line: u8) -> Step
    ensures { (a : List ℤ) → length a ≡ w.line.bottom → TopPut w.line w.seen columns.now a b.old line result b.new }
{
    let order = w.line.order;
    if w.line.bottom != order.pairs {
        return refuse_open(w, Refusal::Sequence);
    }
    match fill(columns, b, order, w.line.top, line) {
        Some(top) if top == order.pairs => go(Phase::Ready, w.seen, Did::Completed(order)),
        Some(top) => go(
            Phase::Inside(OpenLine { top, ..w.line }),
            w.seen,
            Did::Filled,
        ),
        None => refuse_open(w, Refusal::Sequence),
    }
}

// The line that a header cuts off is named first.
fn cut_off(line: u8, t: Step) -> Step
    ensures { result ≡ cut_off line t }
{
    Step {
        cut: Some(line),
        ..t
    }
}

fn on_inside(
    said: Option<Said>,
    columns: &[i32; 16],
    a: &mut [i32; MAX_PAIRS],
    b: &mut [i32; MAX_PAIRS],
    w: Within,
) -> Step
    requires { count_said said ≤ 16 }
    ensures { Stepped (within w.line w.seen) a.old b.old (framed said columns.now) result a.new b.new }
{
    match said {
        Some(Said::Header(o)) => cut_off(w.line.order.line, head(w.seen, o)),
        Some(Said::Bottom(l, k)) => on_bottom(&columns[..k], a, w, l),
        Some(Said::Top(l, k)) => on_top(&columns[..k], b, w, l),
        None => refuse_open(w, Refusal::Frame),
    }
}

// A whole line, by its text: all before its line feed.
pub fn on_text(text: &[u8], a: &mut [i32; MAX_PAIRS], b: &mut [i32; MAX_PAIRS], m: Machine) -> Step
    ensures { Stepped m a.old b.old (text_frame text.now) result a.new b.new }
{
    let mut columns = [0i32; 16];
    let said = read_text(text, &mut columns);
    match m.within() {
        Some(w) => on_inside(said, &columns, a, b, w),
        None => on_outside(m, said),
    }
}

// A last line that has no line feed: a bad frame.
pub fn on_rest(m: Machine) -> Step
    ensures { (a b : List ℤ) → Stepped m a b bad result a b }
{
    match m.within() {
        Some(w) => refuse_open(w, Refusal::Frame),
        None => miss(m, Refusal::Frame),
    }
}

// The end of input.
pub fn on_end(m: Machine) -> Step
    ensures { Ended m result }
{
    match m.within() {
        Some(w) => refuse_open(w, Refusal::Sequence),
        None => pass(m.seen),
    }
}
