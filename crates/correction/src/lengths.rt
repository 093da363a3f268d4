// How long the lists are that solve and settle are lent.
ghost use Rattle.std.specs.Prelude.{◌≡◌, ◌+◌, ◌*◌, ◌≤◌};
ghost use Rattle.algebra.specs.Code.{bound};

use checksum::{Checksum, bound};

/// As many records as any code asks for: no bound is above 16.
pub const MOST_RECORDS: usize = 16;

/// As many elements to work in as any code asks for.
pub const MOST_WORK: usize = 12 * (MOST_RECORDS + 2);

/// How many elements to work in a code asks for. It asks for as many records as its bound.
pub fn work_needed<C: Checksum>() -> usize
    ensures value { result ≡ 12 * (bound C.Checksum.code + 2) }
    ensures enough { result ≤ MOST_WORK }
{
    C::laws();
    12 * (bound::<C>() + 2)
}
