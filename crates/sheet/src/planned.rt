// What a complete line is answered: the answer to the wish of its header.
ghost use Rattle.std.specs.Prelude.{◌≤◌, length, take};
ghost use Rattle.sheet.specs.Planned.{PlanTold};

use frame::read::Order;
use jumper::refusal::Numbers;
use plan::plan::plan;
use plan::wish::wish_of;

// Of the rows that the first columns of the lent ones are, as many as it orders.
pub(crate) fn plan_first(a: &[i32], b: &[i32], o: Order) -> Numbers
    requires { (o.pairs ≤ length a.now) × (o.pairs ≤ length b.now) }
    ensures { PlanTold o.separation o.offset (take o.pairs a.now) (take o.pairs b.now) result }
{
    plan(
        wish_of(o.separation, o.offset),
        &a[..o.pairs],
        &b[..o.pairs],
    )
}
