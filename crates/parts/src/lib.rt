// Floor 6: a catalog jumper with some of its pads left bare (02, #113). Whether its old record still serves the part, and the part's route out of the old one.
#![tactic(auto)]

mod keep;
pub mod routed;
mod stays;
pub mod still;
