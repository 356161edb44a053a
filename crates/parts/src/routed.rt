// The route of a part out of the old route's table: no new planning.
ghost use Rattle.parts.specs.Routed.{RoutedAnswer};

use crate::keep::keep_wires;
use crate::stays::Part;
use jumper::refusal::Refusal;
use route::checking::check_route;

// The old table without the wires of the pairs that are dropped: refusals 1 to 7 as for `still_fits`, BUFFER if the table or the lent places are too few, then
// BADWIRE as the checker says of the old table.
pub fn part_route(
    a: &[i32],
    b: &[i32],
    stays: &[u8],
    s: usize,
    d: i32,
    table: &[i32],
    out: &mut [i32],
) -> Result<(), Refusal>
    ensures { RoutedAnswer a.now b.now stays.now s d table.now out.old out.new result }
{
    let part = Part::check(a, b, stays, s, d)?;
    if out.len() < part.places() {
        return Err(Refusal::Buffer);
    }
    check_route(a, b, s, d, table)?;
    keep_wires(part, table, out);
    Ok(())
}
