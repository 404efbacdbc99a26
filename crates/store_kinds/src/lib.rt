// The bodies of biometrics files, and the rules of the files. Every function takes any bytes; what is not well formed gets the
// answer that says so.
#![tactic(auto)]

pub mod biometrics;
pub mod rules;
