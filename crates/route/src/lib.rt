// Floor 5: routes. Drawing one wire or all of them into lent places, a route as the frames 21 of a sheet, and checking any table of columns.
#![tactic(auto)]

pub mod checking;
mod column;
pub mod drawing;
pub mod moves;
