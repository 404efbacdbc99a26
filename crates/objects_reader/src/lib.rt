// Data objects: reading nested ones.
#![tactic(auto)]

pub mod head;
pub mod number;
pub mod reader;
