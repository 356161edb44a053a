// Floor 4: whether a separation and an offset fit and what prevents it, the least separation, the offset range, the stretch at fault.
#![tactic(auto)]

pub mod least;
pub mod misfit;
pub mod offsets;
pub mod stretch;
