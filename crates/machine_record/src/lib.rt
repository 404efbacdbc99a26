// Commands on record files: APPEND RECORD, READ RECORD, SEARCH RECORD. Each is a module, its tests in the order of the ten steps.
#![tactic(auto)]

pub mod append_record;
pub mod read_record;
pub mod search_record;
