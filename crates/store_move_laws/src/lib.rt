// What is in the image after a move: every record under its number, every biometrics file with its state and its bytes. This crate has
// definitions and proofs and no code; the code they speak of is that of `moving`.
#![tactic(auto)]
