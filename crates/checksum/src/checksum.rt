// What a code is. Any type that keeps the laws below is a code: sealing, checking and all that is built on them are
// written, and proved, for every one.
ghost use Rattle.std.specs.Prelude.{◌≡◌, ℕ};
ghost use Rattle.algebra.specs.Code.{Code, IsLawfulCode, bound, checks, generator_poly};
ghost use Rattle.algebra.specs.NumericCode.{NumericCode, numeric_code};
ghost use Rattle.algebra.specs.Poly.{coeff};

use fields::{ExtensionField, Field};

/// A code: the rows of symbols whose residue, modulo a generator polynomial, is the target. A code is named by a type
/// that needs no value.
pub trait Checksum {
    /// The field of the symbols.
    type SymbolField: Field;

    /// The field in which rows are corrected, above the symbols.
    type CorrectionField: ExtensionField<BaseField = Self::SymbolField>;

    ghost code: { Code Self.SymbolField Self.CorrectionField };

    ghost CHECKSUM_LENGTH: { ℕ };

    ghost CODE_LENGTH: { ℕ };

    ghost ROOT_GENERATOR: { Self.CorrectionField };

    ghost ROOT_EXPONENTS: { ℕ × ℕ };

    // The code as its rows know it, symbols being numbers.
    ghost rows: { NumericCode };

    /// k: how many check symbols a row has, which is the degree of the generator polynomial.
    const CHECKSUM_LENGTH: usize;

    /// The limit: how long a row may be, check symbols and all, for the code to keep its promises.
    const CODE_LENGTH: usize;

    /// The element whose powers are roots of the generator polynomial.
    const ROOT_GENERATOR: Self::CorrectionField;

    /// The first and the last of the consecutive exponents at which they are.
    const ROOT_EXPONENTS: (usize, usize);

    /// The coefficient of a power of x in the generator polynomial: ONE at k, ZERO above it.
    fn generator(power: usize) -> Self::SymbolField
        ensures { result ≡ coeff Self.SymbolField.field
            (generator_poly Self.SymbolField.field code) power };

    /// The coefficient of a power of x in the residue of a sound row: ZERO from k on.
    fn target_residue(power: usize) -> Self::SymbolField
        ensures { result ≡ coeff Self.SymbolField.field code.target power };

    /// What makes the code lawful. Generic code calls this to have the laws at hand.
    fn laws()
        ensures alphabet { Self.SymbolField.numbers.size ≡ 32 }
        ensures lawful { IsLawfulCode Self.SymbolField.field
            Self.CorrectionField.field Self.CorrectionField.lifted code };

    ghost checksum_length_is: { CHECKSUM_LENGTH ≡ checks code };

    ghost code_length_is: { CODE_LENGTH ≡ code.limit };

    ghost root_generator_is: { ROOT_GENERATOR ≡ code.root };

    ghost root_exponents_are: { ROOT_EXPONENTS ≡ (code.first, code.last) };

    // The rows are those of the code.
    ghost rows_are: { rows ≡ numeric_code Self.SymbolField.numbers Self.SymbolField.field code };
}

/// The bound: as many consecutive roots as there are. A row can be mended where twice its errors and its doubted places
/// together are at most this.
pub fn bound<C: Checksum>() -> usize
    ensures code { result ≡ bound C.code }
    ensures rows { result ≡ C.rows.bound }
{
    C::laws();
    let (first, last) = C::ROOT_EXPONENTS;
    last - first + 1
}
