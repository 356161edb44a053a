// Floor 8: the calls of the product for C and Rust. A slice is a pointer and a count of elements; an answer comes back by value, as `Numbers` but for a stretch
// and a record.
// Each promises which numbers and which buffer, at every input (`answer`, `buffer`), and all that the call it stands for promises (`means`).
#![tactic(auto)]

ghost use Rattle.std.specs.Prelude.{◌≡◌, length};
ghost use Rattle.jumper.specs.Rows.{checked_numbers, check_rows, RowCheck};
ghost use Rattle.fit.specs.Misfit.{fit_of, FitAnswer};
ghost use Rattle.fit.specs.Stretch.{StretchPlace};
ghost use Rattle.fit.specs.Least.{least_numbers, least_answer, LeastAnswer};
ghost use Rattle.fit.specs.Offsets.{offsets_numbers, offsets_answer, OffsetsAnswer};
ghost use Rattle.best.specs.Best.{best_numbers, best_answer, ladder_by, ladder_of, BestAnswer};
ghost use Rattle.route.specs.Draw.{wire_refusal, all_refusal, buffer_after, wire_drawn, all_drawn, DrawWireAnswer, DrawAllAnswer};
ghost use Rattle.route.specs.Check.{route_checked, RouteCheck};
ghost use Rattle.parts.specs.Still.{still_of, StillAnswer};
ghost use Rattle.parts.specs.Routed.{routed_refusal, routed_buffer, RoutedAnswer};
ghost use Rattle.form.specs.Line.{LineAnswer};
ghost use Rattle.catalog_c.specs.InNumbers.{InNumbers};

use fit::stretch::Place;
use form::line::Line;
use jumper::refusal::Numbers;

// The row check: refusals 1 to 5.
#[unsafe(no_mangle)]
pub extern "C" fn obrastyn_rows(a: &[i32], b: &[i32]) -> Numbers
    ensures answer { result ≡ checked_numbers (check_rows a.now b.now) }
    ensures means { InNumbers checked_numbers (RowCheck a.now b.now) result }
{
    Numbers::from(jumper::rows::check_rows(a, b))
}

// Whether a legal wiring exists at separation s and offset d: refusals 1 to 7 and 10.
#[unsafe(no_mangle)]
pub extern "C" fn obrastyn_fit(a: &[i32], b: &[i32], s: usize, d: i32) -> Numbers
    ensures answer { result ≡ checked_numbers (fit_of a.now b.now s d) }
    ensures means { InNumbers checked_numbers (FitAnswer a.now b.now s d) result }
{
    Numbers::from(fit::misfit::fit(a, b, s, d))
}

// The least separation at offset d: refusals 1 to 5 and 7.
#[unsafe(no_mangle)]
pub extern "C" fn obrastyn_least(a: &[i32], b: &[i32], d: i32) -> Numbers
    ensures answer { result ≡ least_numbers (least_answer a.now b.now d) }
    ensures means { InNumbers least_numbers (LeastAnswer a.now b.now d) result }
{
    Numbers::from(fit::least::least_at(a, b, d))
}

// The offsets that fit at separation s: refusals 1 to 6 and 11.
#[unsafe(no_mangle)]
pub extern "C" fn obrastyn_range(a: &[i32], b: &[i32], s: usize) -> Numbers
    ensures answer { result ≡ offsets_numbers (offsets_answer a.now b.now s) }
    ensures means { InNumbers offsets_numbers (OffsetsAnswer a.now b.now s) result }
{
    Numbers::from(fit::offsets::range_at(a, b, s))
}

// The stretch at fault, by its place: refused or fitting, it has no pads.
#[unsafe(no_mangle)]
pub extern "C" fn obrastyn_stretch(a: &[i32], b: &[i32], s: usize, d: i32) -> Place
    ensures { StretchPlace a.now b.now s d result }
{
    fit::stretch::stretch_place(a, b, s, d)
}

// The best separation, its offsets and the count, with the ladder in front of the buffer: refusals 1 to 5 and 9.
#[unsafe(no_mangle)]
pub extern "C" fn obrastyn_best(a: &[i32], b: &[i32], ladder: &mut [usize]) -> Numbers
    ensures answer { result ≡ best_numbers (best_answer a.now b.now ladder.old) }
    ensures buffer { ladder.new ≡ ladder_by (best_answer a.now b.now ladder.old)
        (ladder_of a.now b.now) ladder.old }
    ensures means { InNumbers best_numbers (BestAnswer a.now b.now ladder.old ladder.new) result }
{
    Numbers::from(best::plan::best_of(a, b, ladder))
}

// Wire `wire` drawn into s + 1 places: refusals 1 to 10.
#[unsafe(no_mangle)]
pub extern "C" fn obrastyn_draw_wire(
    a: &[i32],
    b: &[i32],
    s: usize,
    d: i32,
    wire: usize,
    out: &mut [i32],
) -> Numbers
    ensures answer { result ≡ checked_numbers (wire_refusal a.now b.now s d wire (length out.old)) }
    ensures buffer { out.new ≡ buffer_after (wire_refusal a.now b.now s d wire (length out.old))
        (wire_drawn a.now b.now s d wire out.old) out.old }
    ensures means { InNumbers checked_numbers (DrawWireAnswer a.now b.now s d wire out.old out.new) result }
{
    Numbers::from(route::drawing::draw_wire(a, b, s, d, wire, out))
}

// All wires drawn, wire after wire, into n(s + 1) places: refusals 1 to 7, 9 and 10.
#[unsafe(no_mangle)]
pub extern "C" fn obrastyn_draw_all(
    a: &[i32],
    b: &[i32],
    s: usize,
    d: i32,
    out: &mut [i32],
) -> Numbers
    ensures answer { result ≡ checked_numbers (all_refusal a.now b.now s d (length out.old)) }
    ensures buffer { out.new ≡ buffer_after (all_refusal a.now b.now s d (length out.old))
        (all_drawn a.now b.now s d out.old) out.old }
    ensures means { InNumbers checked_numbers (DrawAllAnswer a.now b.now s d out.old out.new) result }
{
    Numbers::from(route::drawing::draw_all(a, b, s, d, out))
}

// A table from anyone, checked: refusals 1 to 7, 9 and 16.
#[unsafe(no_mangle)]
pub extern "C" fn obrastyn_check(a: &[i32], b: &[i32], s: usize, d: i32, table: &[i32]) -> Numbers
    ensures answer { result ≡ checked_numbers (route_checked a.now b.now s d table.now) }
    ensures means { InNumbers checked_numbers (RouteCheck a.now b.now s d table.now) result }
{
    Numbers::from(route::checking::check_route(a, b, s, d, table))
}

// Whether the kept record still serves the part in which only the pairs stay whose byte isn't 0: refusals 1 to 7 and 10.
#[unsafe(no_mangle)]
pub extern "C" fn obrastyn_still_fits(
    a: &[i32],
    b: &[i32],
    stays: &[u8],
    s: usize,
    d: i32,
) -> Numbers
    ensures answer { result ≡ checked_numbers (still_of a.now b.now stays.now s d) }
    ensures means { InNumbers checked_numbers (StillAnswer a.now b.now stays.now s d) result }
{
    Numbers::from(parts::still::still_fits(a, b, stays, s, d))
}

// The route of such a part out of the old route's table: refusals 1 to 7, 9 and 16.
#[unsafe(no_mangle)]
pub extern "C" fn obrastyn_part_route(
    a: &[i32],
    b: &[i32],
    stays: &[u8],
    s: usize,
    d: i32,
    table: &[i32],
    out: &mut [i32],
) -> Numbers
    ensures answer { result ≡ checked_numbers (routed_refusal a.now b.now stays.now s d table.now (length out.old)) }
    ensures buffer { out.new ≡ routed_buffer a.now b.now stays.now s d table.now out.old }
    ensures means { InNumbers checked_numbers
        (RoutedAnswer a.now b.now stays.now s d table.now out.old out.new) result }
{
    Numbers::from(parts::routed::part_route(a, b, stays, s, d, table, out))
}

// One record of an order form answered by value: LINE where its pads aren't in the pools, else what its wish is answered.
#[unsafe(no_mangle)]
pub extern "C" fn obrastyn_answer(line: Line, pool_a: &[i32], pool_b: &[i32]) -> Line
    ensures { LineAnswer line pool_a.now pool_b.now result }
{
    form::line::answered(line, pool_a, pool_b)
}
