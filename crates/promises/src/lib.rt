// The three promises: theorems over any calls. This crate has definitions and proofs and no code; the code they speak of is that of
// `machine`, whose contract is `step`.
#![tactic(auto)]
