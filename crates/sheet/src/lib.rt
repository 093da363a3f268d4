// Sheets: typed lines, taken onto slips; rows in groups of four; rows that are read off; output lines; and what the programs hut
// and seal write for each line.
#![tactic(auto)]

pub mod characters;
pub mod columns;
pub mod fault;
pub mod groups;
pub mod hut;
pub mod hut_lines;
pub mod output_line;
pub mod pieces;
pub mod reading;
pub mod reading_off;
pub mod refusal;
pub mod seal;
pub mod sealed;
pub mod sheet_fault;
pub mod taking;

pub use characters::{Case, Character};
pub use fault::LineFault;
pub use hut::{FinishClerk, finish_stream};
pub use hut_lines::finish_line;
pub use output_line::Report;
pub use pieces::{Piece, Pieces};
pub use reading::Reading;
pub use refusal::{Layer, Refusal, refusal_number};
pub use seal::{SealClerk, seal_stream};
pub use sealed::seal_line;
pub use sheet_fault::{Cause, SheetFault};
pub use taking::take_line;
