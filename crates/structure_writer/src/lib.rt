// Writing one structure: whether its value is one that a label can hold, and its bytes.
#![tactic(auto)]

pub mod lawful;
pub mod write;
