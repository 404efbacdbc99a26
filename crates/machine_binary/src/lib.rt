// Commands on transparent files: READ BINARY, with INS B0 and with the odd INS B1; UPDATE BINARY; ACTIVATE. Each is a module, its tests in
// the order of the ten steps.
#![tactic(auto)]

pub mod activate;
pub mod read_binary;
pub mod read_binary_odd;
pub mod update_binary;
