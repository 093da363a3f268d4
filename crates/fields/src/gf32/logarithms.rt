// Logarithms in GF(32), to the base t.
ghost use Rattle.std.specs.Prelude.{◌≡◌, ◌<◌};
ghost use Rattle.fields.specs.Binary.{binary_power};

use super::Fe32;

// The exponent at which t's power is the element of a number; ZERO, the first, has none.
const LOG: [usize; 32] = [
    0, 0, 1, 14, 2, 28, 15, 22, 3, 5, 29, 26, 16, 7, 23, 11, 4, 25, 6, 10, 30, 13, 27, 21, 17, 18,
    8, 19, 24, 9, 12, 20,
];

// The powers of t.
const LOG_INV: [u8; 31] = [
    1, 2, 4, 8, 16, 9, 18, 13, 26, 29, 19, 15, 30, 21, 3, 6, 12, 24, 25, 27, 31, 23, 7, 14, 28, 17,
    11, 22, 5, 10, 20,
];

pub(super) fn logarithm(x: Fe32) -> usize
    ensures below { result < 31 }
    ensures power { ¬ (x.value ≡ 0) → binary_power 2 result ≡ x.value }
{
    LOG[x.value as usize]
}

pub(super) fn power_of_t(exponent: usize) -> Fe32
    requires { exponent < 31 }
    ensures { result.value ≡ binary_power 2 exponent }
{
    Fe32 {
        value: LOG_INV[exponent],
    }
}
