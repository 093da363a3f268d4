// Scripts: calls on several slips, each by the code that it names, with the whole promise on one public call.
#![tactic(auto)]

pub mod call;
pub mod codes;
pub mod listing;
pub mod run;
pub mod script;

pub use codes::{CodeSet, Single, Workspace};
pub use listing::Listing;
pub use script::{Answer, Call, Lent, Reply, Step};
