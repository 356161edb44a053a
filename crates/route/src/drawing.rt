// Drawing a route: the columns on which wires enter each track (01, "Drawing and checking"; 02, #106).
ghost use Rattle.std.specs.Prelude.{Err, IfOk, IfErr, ◌≡◌, ◌++◌, ℕ, ◌+◌, ◌*◌, ◌≤◌, ◌<◌, length, drop};
ghost use Rattle.wiring.specs.Wiring.{pad};
ghost use Rattle.wiring.specs.Drawing.{entry};
ghost use Rattle.jumper.specs.Limits.{max_pairs, max_tracks};
ghost use Rattle.jumper.specs.Asked.{check_asked, Asked};
ghost use Rattle.route.specs.Table.{columns};
ghost use Rattle.route.specs.Draw.{wire_drawn, all_drawn, DrawWireAnswer, DrawAllAnswer};
ghost use Rattle.route.specs.Asked.{FitAsked};

use crate::column::Wire;
use fit::misfit::fit;
use jumper::asked::Question;
use jumper::refusal::Refusal;
use jumper::rows::Rows;

// Wire `wire` into s + 1 places: refusals 1 to 7, WIRE, BUFFER, NOFIT.
pub fn draw_wire(
    a: &[i32],
    b: &[i32],
    s: usize,
    d: i32,
    wire: usize,
    out: &mut [i32],
) -> Result<(), Refusal>
    ensures { DrawWireAnswer a.now b.now s d wire out.old out.new result }
{
    let (q, fits) = asked(a, b, s, d)?;
    if a.len() <= wire {
        return Err(Refusal::Wire);
    }
    if out.len() <= s {
        return Err(Refusal::Buffer);
    }
    fits?;
    draw_columns(q, wire, out);
    Ok(())
}

// All wires, wire after wire, into n(s + 1) places: refusals 1 to 7, BUFFER, NOFIT.
pub fn draw_all(a: &[i32], b: &[i32], s: usize, d: i32, out: &mut [i32]) -> Result<(), Refusal>
    ensures { DrawAllAnswer a.now b.now s d out.old out.new result }
{
    let (q, fits) = asked(a, b, s, d)?;
    if out.len() < places(a.len(), s) {
        return Err(Refusal::Buffer);
    }
    fits?;
    draw_wires(q, out);
    Ok(())
}

// What `fit` says, its refusals 1 to 7 apart from NOFIT, before which others come. It looks at the rows, so they are looked at once.
fn asked<'a>(
    a: &'a [i32],
    b: &'a [i32],
    s: usize,
    d: i32,
) -> Result<(Question<'a>, Result<(), Refusal>), Refusal>
    ensures ok { IfOk result (λ p. FitAsked a.now b.now s d p.0 p.1) }
    ensures err { IfErr result (λ r. check_asked a.now b.now s d ≡ Err r) }
{
    let fits = fit(a, b, s, d);
    match fits {
        Ok(()) | Err(Refusal::NoFit(..)) => Ok((accepted(a, b, s, d), fits)),
        Err(r) => Err(r),
    }
}

fn accepted<'a>(a: &'a [i32], b: &'a [i32], separation: usize, offset: i32) -> Question<'a>
    requires { Asked a.now b.now separation offset }
    ensures { (result.rows.bottom.now ≡ a.now) × (result.rows.top.now ≡ b.now) × (result.separation ≡ separation) × (result.offset ≡ offset) }
{
    let rows = Rows { bottom: a, top: b };
    Question {
        rows,
        separation,
        offset,
    }
}

// How many places the columns of n wires take.
pub(crate) fn places(n: usize, s: usize) -> usize
    requires { (n ≤ max_pairs) × (s ≤ max_tracks) }
    ensures { result ≡ n * (s + 1) }
{
    n * (s + 1)
}

// The columns of a wire: `column(t)` on track t where pads hold it, on the tracks below `held`, and straight up on column `end` from there.
fn draw_held<F: Fn(usize) -> i32>(held: usize, column: F, end: i32, out: &mut [i32])
    requires { (t : ℕ) → t < held → F.pre column t }
    ensures held { (t : ℕ) → t < held → t < length out.old → F.post column t (pad out.new t) }
    ensures free { (t : ℕ) → held ≤ t → t < length out.old → pad out.new t ≡ end }
{
    let held = held.min(out.len());
    for (t, place) in out[..held].iter_mut().enumerate() {
        *place = column(t);
    }
    out[held..].fill(end);
}

// 01's columns of a wire, as many as there is room for. The direction is chosen once for the whole wire.
fn draw_entries(wire: Wire<'_>, out: &mut [i32])
    ensures { (t : ℕ) → t < length out.old → pad out.new t ≡ entry (length wire.entry.row.now) (pad wire.entry.row.now) wire.entry.end wire.entry.pad t }
{
    if wire.goes_left() {
        draw_held(wire.pad + 1, |t| wire.left(t), wire.end, out);
    } else {
        draw_held(wire.row.len() - wire.pad, |t| wire.right(t), wire.end, out);
    }
}

// Wire i into the first s + 1 places: its pad's column on track 0, and 01's columns above it. The first place is stored last: stored first, drawing was slower.
fn draw_columns(q: Question<'_>, i: usize, out: &mut [i32])
    requires { (i < length q.rows.bottom.now) × (q.separation < length out.old) }
    ensures { out.new ≡ wire_drawn q.entry.rows.bottom.now q.entry.rows.top.now q.entry.separation q.entry.offset i out.old }
{
    draw_entries(Wire::of(q, i), &mut out[1..=q.separation]);
    out[0] = q.rows.bottom[i];
}

// Wire after wire into the first n(s + 1) places.
#[tactic(auto, using(crate::proofs::Places::none_drawn))]
fn draw_wires(q: Question<'_>, out: &mut [i32])
    requires { length q.rows.bottom.now * (q.separation + 1) ≤ length out.old }
    ensures { out.new ≡ all_drawn q.entry.rows.bottom.now q.entry.rows.top.now q.entry.separation q.entry.offset out.old }
{
    for i in 0..q.rows.bottom.len() {
        draw_columns(q, i, &mut out[places(i, q.separation)..]);
    }
}
