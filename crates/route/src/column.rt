// The column on which a wire enters a track (01, "Drawing and checking"): what a drawing writes for a whole wire, and what frames 21 ask for a place at a time.
ghost use Rattle.std.specs.Prelude.{◌≡◌, ◌+◌, ◌≤◌, ◌<◌, length};
ghost use Rattle.std.specs.Int.Signed.{lt_z};
ghost use Rattle.wiring.specs.Wiring.{pad, top_pad};
ghost use Rattle.wiring.specs.Drawing.{rightward, leftward, entry, column_at};
ghost use Rattle.jumper.specs.Limits.{max_pairs};
ghost use Rattle.jumper.specs.Rows.{AcceptedRow};

use jumper::asked::Question;
use jumper::serves::rule_at;

// A wire from a pad of a row to the column on which it ends.
#[derive(Clone, Copy)]
pub(crate) struct Wire<'a> {
    pub(crate) row: &'a [i32],
    pub(crate) pad: usize,
    pub(crate) end: i32,
    ghost accepted: { AcceptedRow row.now },
    ghost few: { length row.now ≤ max_pairs },
    ghost inside: { pad < length row.now },
}

// The column of top pad i.
pub(crate) fn top_pad(q: Question<'_>, i: usize) -> i32
    requires { i < length q.rows.bottom.now }
    ensures { result ≡ top_pad q.entry.rows.top.now q.entry.offset i }
{
    q.rows.top[i] + q.offset
}

impl<'a> Wire<'a> {
    // Wire i of the route: to the column of top pad i.
    pub(crate) fn of(q: Question<'a>, i: usize) -> Wire<'a>
        requires { i < length q.rows.bottom.now }
        ensures { (result.row.now ≡ q.entry.rows.bottom.now) × (result.pad ≡ i) × (result.end ≡ top_pad q.entry.rows.top.now q.entry.offset i) }
    {
        Wire {
            row: q.rows.bottom,
            pad: i,
            end: top_pad(q, i),
        }
    }

    // Whether it goes to its left.
    pub(crate) fn goes_left(self) -> bool
        ensures { result ≡ lt_z self.entry.end (pad self.entry.row.now self.entry.pad) }
    {
        self.end < self.row[self.pad]
    }

    // 01's e_t of a wire that goes to its right, where pad i + t still holds it.
    pub(crate) fn right(self, t: usize) -> i32
        requires { self.pad + t < length self.row.now }
        ensures { result ≡ rightward (length self.entry.row.now) (pad self.entry.row.now) self.entry.end self.entry.pad t }
    {
        self.end.min(self.row[self.pad + t] - t as i32)
    }

    // The same of a wire that goes to its left, where pad i - t still holds it.
    pub(crate) fn left(self, t: usize) -> i32
        requires { t ≤ self.pad }
        ensures { result ≡ leftward (pad self.entry.row.now) self.entry.end self.entry.pad t }
    {
        self.end.max(self.row[self.pad - t] + t as i32)
    }

    // 01's e_t.
    #[tactic(auto, using(crate::proofs::Wires::ways))]
    fn entry(self, t: usize) -> i32
        ensures { result ≡ entry (length self.entry.row.now) (pad self.entry.row.now) self.entry.end self.entry.pad t }
    {
        if self.goes_left() {
            if t <= self.pad {
                self.left(t)
            } else {
                self.end
            }
        } else if t < self.row.len() - self.pad {
            self.right(t)
        } else {
            self.end
        }
    }

    // The column on which it enters track t: 01's, with one straight step below.
    pub(crate) fn column(self, t: usize) -> i32
        ensures { result ≡ column_at (length self.entry.row.now) (pad self.entry.row.now) self.entry.end self.entry.pad t }
    {
        self.entry(rule_at(t))
    }
}
