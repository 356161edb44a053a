// Floor 3: the jumper as it is ordered. What is accepted, what is refused and with which numbers, the row check, which separation the
// rule of fit serves, and the range of offsets.
#![tactic(auto)]

pub mod asked;
pub mod limits;
pub mod range;
pub mod refusal;
pub mod rows;
pub mod serves;
