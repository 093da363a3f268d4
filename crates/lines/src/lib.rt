// Lines from a reader, each answered on a writer before the next is read.
#![tactic(auto)]

pub mod answering;
pub mod fault;
pub mod reading;
#[cfg(test)]
mod tests;
pub mod writing;

pub use answering::{Clerk, INPUT_BYTES, answer_lines};
pub use fault::StreamError;
pub use reading::{LineAhead, has_more};
pub use writing::write_text;
