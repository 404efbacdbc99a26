// The bodies of record files, and the numbers in them. Every function takes any bytes; what is not well formed gets the answer
// that says so.
#![tactic(auto)]

pub mod body;
pub mod little;
