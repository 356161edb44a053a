// The offset range at a separation. In all but `range_at` itself s is the rule's number.
ghost use Rattle.std.specs.Prelude.{◌≡◌, ◌≢◌, ℕ, ◌+◌, ◌-◌, ◌≤◌, ◌<◌, length};
ghost use Rattle.wiring.specs.Fit.{lean_of};
ghost use Rattle.jumper.specs.Limits.{max_tracks};
ghost use Rattle.jumper.specs.Span.{range_of};
ghost use Rattle.fit.specs.Offsets.{gap, gaps_of, GapFrom, range_found, OffsetsAnswer};

use jumper::asked::check_tracks;
use jumper::range::OffsetRange;
use jumper::refusal::Refusal;
use jumper::rows::Rows;
use jumper::serves::rule_at;

// The offsets at which a legal wiring exists at separation s: refusals 1 to 6, then NOOFFSET.
pub fn range_at(a: &[i32], b: &[i32], s: usize) -> Result<OffsetRange, Refusal>
    ensures { OffsetsAnswer a.now b.now s result }
{
    check_tracks(a, b, s)?;
    let r = rule_at(s);
    range_found(Rows { bottom: a, top: b }, r)
}

// How far bottom pad i stands right of top pad j. The ends that pair i sets are such gaps, s further on: the low end its gap to top pad i + s, and the high end
// the gap of bottom pad i + s to top pad i.
fn gap(rows: Rows<'_>, i: usize, j: usize) -> i32
    requires { (i < length rows.bottom.now) × (j < length rows.bottom.now) }
    ensures { result ≡ gap rows.entry.bottom.now rows.entry.top.now i j }
{
    rows.bottom[i] - rows.top[j]
}

// The largest low gap and the smallest high gap.
fn gaps_of(rows: Rows<'_>, s: usize) -> OffsetRange
    requires { s < length rows.bottom.now }
    ensures { result ≡ gaps_of rows.entry.bottom.now rows.entry.top.now s }
{
    let mut low = gap(rows, 0, s);
    let mut high = gap(rows, s, 0);
    for i in 1..rows.bottom.len() - s {
        low = low.max(gap(rows, i, i + s));
        high = high.min(gap(rows, i + s, i));
    }
    OffsetRange { low, high }
}

// The range at s, for s < n. The s that every end has is added once.
pub(crate) fn range_of(rows: Rows<'_>, s: usize) -> OffsetRange
    requires { s < length rows.bottom.now }
    ensures { result ≡ range_of (length rows.entry.bottom.now) (lean_of rows.entry.bottom.now) (lean_of rows.entry.top.now) s }
{
    let g = gaps_of(rows, s);
    OffsetRange {
        low: g.low + s as i32,
        high: g.high - s as i32,
    }
}

// The first of the pairs with this gap between bottom pad i on and top pad j on: an end's own gap finds the pair that sets it. There is one, so the search asks
// for nothing but the gap. Only a refusal asks for it, so the loop above is spared the places.
fn first_with(rows: Rows<'_>, i: usize, j: usize, wanted: i32) -> usize
    requires { GapFrom rows.bottom.now rows.top.now i j 0 wanted }
    ensures before { (k : ℕ) → k < result → gap rows.entry.bottom.now rows.entry.top.now (k + i) (k + j) ≢ wanted }
    ensures found { gap rows.entry.bottom.now rows.entry.top.now (result + i) (result + j) ≡ wanted }
{
    let mut k = 0;
    while gap(rows, k + i, k + j) != wanted {
        k += 1;
    }
    k
}

#[tactic(auto, using(crate::proofs::Spans::low_fits, crate::proofs::Spans::high_fits))]
fn range_found(rows: Rows<'_>, s: usize) -> Result<OffsetRange, Refusal>
    requires { s ≤ max_tracks }
    ensures { result ≡ range_found (length rows.entry.bottom.now) (lean_of rows.entry.bottom.now) (lean_of rows.entry.top.now) s }
{
    if rows.bottom.len() <= s {
        return Ok(OffsetRange::whole());
    }
    let r = range_of(rows, s);
    if r.is_empty() {
        let low = first_with(rows, 0, s, r.low - s as i32);
        let high = first_with(rows, s, 0, r.high + s as i32);
        return Err(Refusal::NoOffset(low, high));
    }
    Ok(r)
}
