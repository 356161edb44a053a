// Floor 2: frames. Hexadecimal, the sum, numbers high byte first; a line read as a frame, and the frames of an answer written as lines.
#![tactic(auto)]

pub mod hex;
pub mod number;
pub mod read;
pub mod write;
