// One line's record, an order and its answer, answered by value.
ghost use Rattle.std.specs.Prelude.{◌≡◌, ◌+◌, ◌<◌, ◌≤◌, length, MatchOption};
ghost use Rattle.form.specs.Line.{pads_of, with_answer, LineAnswer};

use jumper::refusal::{Numbers, Refusal};
use plan::plan::plan;
use plan::wish::wish_of;

// What a line orders. Only `answer` reads its fields.
#[repr(C)]
#[derive(Clone, Copy, Debug, PartialEq, Eq, Hash)]
pub struct Order {
    // Where the line's pads start in each pool, and how many pairs they are.
    pub bottom: usize,
    pub top: usize,
    pub pairs: usize,
    // The wish: a separation or wish::LEAST, an offset or wish::BEST.
    pub separation: u32,
    pub offset: i32,
}

#[repr(C)]
#[derive(Clone, Copy, Debug, PartialEq, Eq, Hash)]
pub struct Line {
    pub order: Order,
    pub answer: Numbers,
}

// The pads of a pool that a line orders, `pairs` of them from `start` on: none where they run past its end. No sum is made that could wrap.
fn pads(pool: &[i32], start: usize, pairs: usize) -> Option<&[i32]>
    ensures { MatchOption result
        (length pool.now < start + pairs)
        (λ xs. (start + pairs ≤ length pool.now) × (xs.now ≡ pads_of start pairs pool.now)) }
{
    pool.get(start..)?.get(..pairs)
}

// What a line is answered: LINE where its pads aren't in the pools, else what its wish is.
fn answer(line: Line, pool_a: &[i32], pool_b: &[i32]) -> Numbers
    ensures { LineAnswer line pool_a.now pool_b.now (with_answer line result) }
{
    let order = line.order;
    let (Some(a), Some(b)) = (
        pads(pool_a, order.bottom, order.pairs),
        pads(pool_b, order.top, order.pairs),
    ) else {
        return Numbers::from(Refusal::Line);
    };
    plan(wish_of(order.separation, order.offset), a, b)
}

// The record with its answer, its order as it was.
pub fn answered(line: Line, pool_a: &[i32], pool_b: &[i32]) -> Line
    ensures { LineAnswer line pool_a.now pool_b.now result }
{
    Line {
        answer: answer(line, pool_a, pool_b),
        ..line
    }
}
