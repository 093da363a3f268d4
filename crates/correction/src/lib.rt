// Mending a slip's row: the corrector, from a slip to the records that it proposes, by way of syndromes, locators and Forney's
// values; which lists of records fit, whoever proposed them; and the row that is found by a code.
#![tactic(auto)]

pub mod checker;
pub mod correction;
pub(crate) mod forney;
pub mod found;
pub mod lengths;
pub(crate) mod listing;
pub(crate) mod locating;
pub mod mending;
pub mod pattern;
pub(crate) mod subtracting;
pub(crate) mod syndromes;

pub use checker::fits;
pub use correction::bch_errors;
pub use found::Found;
pub use mending::{find, settle, solve};
pub use pattern::Pattern;
