// Floor 6: a wish and its answer for two rows, in all its numbers.
#![tactic(auto)]

pub mod plan;
pub mod wish;
