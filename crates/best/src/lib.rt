// Floor 5: the best separation of two rows, by halving.
#![tactic(auto)]

mod climb;
mod entries;
mod level;
pub mod plan;
mod read;
