// Lists of field elements, in slices that the caller passes in: entry by entry, as the coefficients of polynomials, lowest power
// first, and as the terms of linear feedback shift registers.
#![tactic(auto)]

pub mod fault;
pub mod fieldvec;
pub mod lfsr;
pub mod polynomial;
pub mod products;
pub mod roots;

pub use fault::{ListFault, admit};
pub use lfsr::berlekamp_massey;
pub use roots::{Roots, find_nonzero_distinct_roots};
