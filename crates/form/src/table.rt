// The table of a form: one record for each order line, lent as a slice. Two thin functions over it, and a bridge by value for callers that hold an
// array. A call's result is its own refusal, LINE or none; a line's refusal stands in its record. Only a record's answer is written: its order, copied back, would be
// stored in parts and loaded whole, which the processor waits for.
ghost use Rattle.jumper.specs.Rows.{checked_numbers};
ghost use Rattle.form.specs.Table.{OneAnswered, EachAnswered, AllAnswered, RowsAnswered};

use crate::line::{Line, answered};
use jumper::limits::MAX_LINES;
use jumper::refusal::Refusal;

// Answers line k. LINE, and the table as it was, where k is no line or the table is too long.
pub fn answer_line(
    table: &mut [Line],
    k: usize,
    pool_a: &[i32],
    pool_b: &[i32],
) -> Result<(), Refusal>
    ensures { OneAnswered table.old k pool_a.now pool_b.now (checked_numbers result).refusal table.new }
{
    if MAX_LINES < table.len() || table.len() <= k {
        return Err(Refusal::Line);
    }
    table[k].answer = answered(table[k], pool_a, pool_b).answer;
    Ok(())
}

// Answers every line, whatever the others are answered. LINE, and the table as it was, where it is too long.
pub fn answer_all(table: &mut [Line], pool_a: &[i32], pool_b: &[i32]) -> Result<(), Refusal>
    ensures { AllAnswered table.old pool_a.now pool_b.now (checked_numbers result).refusal table.new }
{
    if MAX_LINES < table.len() {
        return Err(Refusal::Line);
    }
    answer_each(table, pool_a, pool_b);
    Ok(())
}

// Every line, of a table of any length.
fn answer_each(table: &mut [Line], pool_a: &[i32], pool_b: &[i32])
    ensures { EachAnswered table.old pool_a.now pool_b.now table.new }
{
    for line in table.iter_mut() {
        line.answer = answered(*line, pool_a, pool_b).answer;
    }
}

// By value, for callers that hold an array of 64 lines: they are answered where they stand.
pub fn answer_rows(mut rows: [Line; MAX_LINES], pool_a: &[i32], pool_b: &[i32]) -> [Line; MAX_LINES]
    ensures { RowsAnswered rows pool_a.now pool_b.now result }
{
    answer_each(&mut rows, pool_a, pool_b);
    rows
}
