// The halving itself: down to one pair, and up again level by level.
ghost use Rattle.std.specs.Prelude.{◌*◌, ◌≤◌, length};
ghost use Rattle.best.specs.Halving.{levels};
ghost use Rattle.best.specs.Work.{Halved, x_of, y_of};

use crate::entries::Entries;
use crate::level::Level;

// The best number of a level. Its rung is written in front of `ladder`, those below behind it.
pub(crate) fn climb(entries: &Entries<'_>, ladder: &mut [usize]) -> Level
    requires { 2 * levels entries.now.len ≤ length ladder.old }
    ensures { Halved entries.now.len (x_of entries.now) (y_of entries.now) ladder.old ladder.new result }
{
    let (rung, below) = ladder.split_first_chunk_mut::<2>().unwrap();
    let level = if 1 < entries.len {
        climb(&entries.even_half(), below).over(entries)
    } else {
        Level::ONE_PAIR
    };
    *rung = [entries.len, level.best];
    level
}
