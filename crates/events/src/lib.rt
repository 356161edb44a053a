// Floor 4: what the frames of a sheet do. The machine takes a line of text and tells an event; which bytes answer it is for the floors above.
#![tactic(auto)]

pub mod machine;
mod seen;
pub mod step;
