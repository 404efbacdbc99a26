// What a command comes to: a status word that stops it, or an action that answers 9000. Nothing is written here.
#![tactic(auto)]

pub mod tests;

use objects_templates::{Search, Writes};
use store_files::{File, Transparent};
use store_kinds::rules::Rule;

// What a command does where no status word stops it. (SearchRecord answers 9000 where a record matches and the reply fits.)
#[derive(Clone, Copy)]
pub enum Action {
    // an application, or the master file
    SelectApplication(usize),
    SelectFile(File),
    // offset, how many bytes
    ReadBinary(Transparent, usize, usize),
    // Biometrics n
    UpdateBinary(u8, Writes),
    Activate(u8),
    AppendRecord(Rule),
    // the records from one number to another
    ReadRecord(Rule, usize, usize),
    // a search, and Ne
    SearchRecord(Rule, Search, usize),
    // the numbers that P2 asks for
    Report(File, usize),
    // READ BINARY with the odd INS: offset, how many bytes of the file; the reply is an object. (It stands last, since proofs count the
    // variants.)
    ReadBinaryOdd(Transparent, usize, usize),
}
