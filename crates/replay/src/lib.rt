// What the programs share that replay recorded answers: the reading of lines, and elements as they are written there.
#![tactic(auto)]

pub mod commas;
pub mod elements;
pub mod lines;
pub mod outcomes;
