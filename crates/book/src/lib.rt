// What the calls on a slip alone say: its book, the rows near it, what each call answers, and why one is refused. The
// definitions are in specs/, and what follows from them in proofs/; the code is the faults, and the records of a mended row.
#![tactic(auto)]

pub mod call_fault;
pub mod code_fault;
pub mod record;
pub mod slip_fault;

pub use call_fault::CallFault;
pub use code_fault::CodeFault;
pub use record::{BLANK, Record};
pub use slip_fault::SlipFault;
