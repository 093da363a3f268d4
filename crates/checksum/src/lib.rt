// Codes: what a code is, which rows are sound, how a row is sealed, what is proved of every code, and two codes.
#![tactic(auto)]

pub mod bech32;
pub mod checksum;
pub mod engine;
pub mod finish;
pub mod symbols;
pub mod theorems;

pub use bech32::Bech32;
pub use checksum::{Checksum, bound};
pub use engine::{CheckSymbols, Engine, is_sound, seal};
pub use finish::Finish;
