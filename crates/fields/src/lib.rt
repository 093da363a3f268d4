// Finite fields: the interfaces that the whole library is generic over, what follows from them alone, and the three fields,
// of 32 elements, and above it of 1,024 and of 32,768.
#![tactic(auto)]

pub mod arithmetic;
pub mod cursor;
pub mod fault;
pub mod field;
pub mod gf1024;
pub mod gf32;
pub mod gf32768;
pub mod monoid;
pub mod powers;

pub use cursor::{Powers, PowersRange};
pub use fault::FieldFault;
pub use field::{ExtensionField, Field};
pub use gf32::Fe32;
pub use gf1024::Fe1024;
pub use gf32768::Fe32768;
pub use monoid::{Monoid, Product, Sum};
