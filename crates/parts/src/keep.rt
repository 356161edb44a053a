// What stays of a row of pads, and of a table of wires, written into memory.
ghost use Rattle.std.specs.Prelude.{◌≡◌, ◌+◌, ◌*◌, ◌≤◌, length};
ghost use Rattle.wiring.specs.Wiring.{pad};
ghost use Rattle.route.specs.Table.{columns};
ghost use Rattle.parts.specs.Stays.{row_kept};
ghost use Rattle.parts.specs.Routed.{places_kept, part_written};

use crate::stays::Part;

// The pads of a row that stay, side by side in the first places. Every pad is stored and only one that stays moves the place on, which takes no branch: so what
// stands beyond them is left open, in memory that is ours. The row is read by the byte's number: zipped with the bytes it takes a twentieth longer.
pub(crate) fn keep_pads<'a>(row: &[i32], stays: &[u8], out: &'a mut [i32]) -> &'a [i32]
    requires { (length stays.now ≤ length row.now) × (length stays.now ≤ length out.old) }
    ensures { result.now ≡ row_kept stays.now row.now }
{
    let mut at = 0;
    for (k, &stay) in stays.iter().enumerate() {
        out[at] = row[k];
        at += usize::from(stay != 0);
    }
    &out[..at]
}

// The columns of a table from place `from` on, as many as there is room for. `copy_from_slice` calls the library's move of memory: for the few columns that most
// wires have the call costs more than the columns, and whoever links the archive for C has to bring that name.
fn copy(table: &[i32], from: usize, out: &mut [i32])
    requires { from + length out.old ≤ length table.now }
    ensures { out.new ≡ columns (λ t. pad table.now (from + t)) (length out.old) }
{
    for (t, place) in out.iter_mut().enumerate() {
        *place = table[from + t];
    }
}

// The wires of a table that stay, wire after wire, each with its s + 1 columns.
pub(crate) fn keep_wires(part: Part<'_>, table: &[i32], out: &mut [i32])
    requires { (length part.stays.now * (part.question.separation + 1) ≤ length table.now)
        × (places_kept part.stays.now part.question.separation ≤ length out.old) }
    ensures { out.new ≡ part_written part.entry.stays.now part.entry.question.separation table.now out.old }
{
    let wire_places = part.question.separation + 1;
    let mut place = 0;
    for (pair, &stay) in part.stays.iter().enumerate() {
        if stay != 0 {
            copy(
                table,
                pair * wire_places,
                &mut out[place..place + wire_places],
            );
            place += wire_places;
        }
    }
}
