// Slips: rows in the making, with doubted places.
#![tactic(auto)]

pub mod slip;

pub use slip::Slip;
