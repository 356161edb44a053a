// The checks of what is asked about two rows: a separation (01, refusal 6) and an offset (7), after the rows themselves.
ghost use Rattle.std.specs.Prelude.{◌≡◌, ◌≤◌, Err, IfOk, IfErr};
ghost use Rattle.jumper.specs.Limits.{max_tracks, AcceptedOffset};
ghost use Rattle.jumper.specs.Asked.{check_asked, tracks_fault, offset_fault, TracksCheck, OffsetCheck, AskedCheck};

use crate::limits::MAX_TRACKS;
use crate::range::OffsetRange;
use crate::refusal::Refusal;
use crate::rows::{Rows, check_rows};

fn tracks_fault(s: usize) -> Result<(), Refusal>
    ensures { result ≡ tracks_fault s }
{
    if MAX_TRACKS < s {
        return Err(Refusal::Tracks);
    }
    Ok(())
}

fn offset_fault(d: i32) -> Result<(), Refusal>
    ensures { result ≡ offset_fault d }
{
    if d < OffsetRange::LOWEST || OffsetRange::HIGHEST < d {
        return Err(Refusal::Offset);
    }
    Ok(())
}

// Refusals 1 to 6.
pub fn check_tracks(a: &[i32], b: &[i32], s: usize) -> Result<(), Refusal>
    ensures { TracksCheck a.now b.now s result }
{
    check_rows(a, b)?;
    tracks_fault(s)
}

// Refusals 1 to 5, then 7.
pub fn check_offset(a: &[i32], b: &[i32], d: i32) -> Result<(), Refusal>
    ensures { OffsetCheck a.now b.now d result }
{
    check_rows(a, b)?;
    offset_fault(d)
}

// Refusals 1 to 7.
pub fn check_asked(a: &[i32], b: &[i32], s: usize, d: i32) -> Result<(), Refusal>
    ensures { AskedCheck a.now b.now s d result }
{
    check_tracks(a, b, s)?;
    offset_fault(d)
}

// Two accepted rows with an accepted separation and offset: whoever makes them shows it, `check` by asking, and what takes them needn't ask again.
#[derive(Clone, Copy)]
pub struct Question<'a> {
    pub rows: Rows<'a>,
    pub separation: usize,
    pub offset: i32,
    ghost tracks: { separation ≤ max_tracks },
    ghost shift: { AcceptedOffset offset },
}

impl<'a> Question<'a> {
    pub fn check(a: &'a [i32], b: &'a [i32], s: usize, d: i32) -> Result<Question<'a>, Refusal>
        ensures ok { IfOk result (λ q. (q.rows.bottom.now ≡ a.now) × (q.rows.top.now ≡ b.now) × (q.separation ≡ s) × (q.offset ≡ d)) }
        ensures err { IfErr result (λ r. check_asked a.now b.now s d ≡ Err r) }
    {
        check_asked(a, b, s, d)?;
        let rows = Rows { bottom: a, top: b };
        Ok(Question {
            rows,
            separation: s,
            offset: d,
        })
    }
}
