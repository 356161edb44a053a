// Floor 7: sheets. A sheet of any length is taken in in pieces and its answer given in pieces; the state goes by value, and the line so far and
// the two rows are lent.
#![tactic(auto)]

pub mod feed;
pub mod give;
mod planned;
pub mod state;
mod step;
