// The best separation of two rows, its offsets, and the ladder that led to it.
ghost use Rattle.std.specs.Prelude.{◌≡◌, ◌*◌, ◌≤◌, length};
ghost use Rattle.best.specs.Halving.{levels};
ghost use Rattle.best.specs.Best.{planned_numbers, BestAnswer};
ghost use Rattle.best.specs.Work.{IsPlanned};

use crate::climb::climb;
use crate::entries::Entries;
use crate::level::count_levels;
use jumper::range::OffsetRange;
use jumper::refusal::{Numbers, Refusal};
use jumper::rows::Rows;
use jumper::serves::tracks_for;

#[derive(Clone, Copy, Debug, PartialEq, Eq, Hash)]
pub struct Planned {
    pub separation: usize,
    // The offsets at which a legal wiring exists there.
    pub range: OffsetRange,
    // How many differences the trials of all levels read.
    pub count: usize,
}

impl From<Planned> for Numbers {
    ghost from_gives = { λ p n. n ≡ planned_numbers p };

    fn from(p: Planned) -> Numbers {
        Numbers {
            separation: p.separation,
            count: p.count,
            ..Numbers::from(p.range)
        }
    }
}

// The least separation at which a legal wiring exists at any offset: refusals 1 to 5, then BUFFER. The ladder is written in front of the buffer:
// size and best number of each level, from all pairs down to one.
pub fn best_of(a: &[i32], b: &[i32], ladder: &mut [usize]) -> Result<Planned, Refusal>
    ensures { BestAnswer a.now b.now ladder.old ladder.new result }
{
    let rows = Rows::check(a, b)?;
    if ladder.len() < 2 * count_levels(a.len()) {
        return Err(Refusal::Buffer);
    }
    Ok(halve(&rows, ladder))
}

// The range of an untried answer is read at the end, outside the count.
fn halve(rows: &Rows<'_>, ladder: &mut [usize]) -> Planned
    requires { 2 * levels (length rows.now.bottom.now) ≤ length ladder.old }
    ensures { IsPlanned rows.now.bottom.now rows.now.top.now ladder.old ladder.new result }
{
    let entries = Entries::whole(rows);
    let level = climb(&entries, ladder);
    Planned {
        separation: tracks_for(level.best),
        range: level.kept_or_read(&entries),
        count: level.count,
    }
}
