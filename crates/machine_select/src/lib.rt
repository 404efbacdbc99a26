// Commands on any file: SELECT, and FILE AND MEMORY MANAGEMENT. Each is a module, its tests in the order of the ten steps.
#![tactic(auto)]

pub mod fmm;
pub mod select;
