// Floor 8: the two calls over a form's table, for C and Rust. A slice is a pointer and a count of elements; a call's own refusal comes back as its number,
// 0 for none. Each promises what the call of `form` that it hands on promises.
#![tactic(auto)]

ghost use Rattle.form.specs.Table.{OneAnswered, AllAnswered};

use form::line::Line;
use jumper::refusal::Numbers;

// Answers line k. LINE, and the table as it was, where k is no line or the table is too long.
#[unsafe(no_mangle)]
pub extern "C" fn answer_line(table: &mut [Line], k: usize, pool_a: &[i32], pool_b: &[i32]) -> u8
    ensures { OneAnswered table.old k pool_a.now pool_b.now result table.new }
{
    Numbers::from(form::table::answer_line(table, k, pool_a, pool_b)).refusal
}

// Answers every line, whatever the others are answered. LINE, and the table as it was, where it is too long.
#[unsafe(no_mangle)]
pub extern "C" fn answer_all(table: &mut [Line], pool_a: &[i32], pool_b: &[i32]) -> u8
    ensures { AllAnswered table.old pool_a.now pool_b.now result table.new }
{
    Numbers::from(form::table::answer_all(table, pool_a, pool_b)).refusal
}
