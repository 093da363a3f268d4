// The engine that works out a row's residue symbol by symbol, and with it the checking and the sealing of rows.
ghost use Rattle.std.specs.Prelude.{List, ◌≡◌, ◌∷◌, ◌++◌, ◌-◌, map, reverse, length, take, replicate, Decides};
ghost use Rattle.algebra.specs.Code.{checks, modulo, poly_one, residue, residue_from, completion, seal, IsSoundRow, IsOnlySeal};
ghost use Rattle.algebra.specs.Poly.{poly_sub};
ghost use Rattle.algebra.specs.Remainder.{IsRemainder};

use crate::checksum::Checksum;
use fields::Field;
use fields::arithmetic::difference;
use std::marker::Model;
use std::mem;

/// A running residue: the coefficients of a polynomial of degree below k, lowest power first, in the first k entries. No
/// code has more than sixteen.
#[derive(Drop)]
pub struct Engine<C: Checksum> {
    entries: [C::SymbolField; 16],
}

// Clauses see the residue's k coefficients.
impl<C: Checksum> Model for Engine<C> {
    ghost Value = { List C.SymbolField };

    ghost view = { λ e. take (checks C.code) e.entries };

    ghost invariant = { λ e. length e.entries ≡ 16 };
}

impl<C: Checksum> Engine<C> {
    /// The engine before the first symbol: the polynomial 1.
    pub fn new() -> Self
        ensures { result ≡ poly_one C.SymbolField.field (checks C.code) }
    {
        C::laws();
        let mut entries = [C::SymbolField::ZERO; 16];
        entries[0] = C::SymbolField::ONE;
        Engine { entries }
    }

    /// One symbol more: residue × x + symbol, modulo the generator polynomial.
    pub fn input_fe(&mut self, symbol: C::SymbolField)
        ensures { self.new ≡ modulo C.SymbolField.field C.code.lower (symbol ∷ self.old) }
    {
        C::laws();
        let residue = &mut self.entries[..C::CHECKSUM_LENGTH];
        let times = residue[residue.len() - 1].neg();
        let mut below = symbol;
        for (power, coefficient) in residue.iter_mut().enumerate() {
            let next = below.add(times.mul(C::generator(power)));
            below = mem::replace(coefficient, next);
        }
    }

    /// The symbols of a row, from its front.
    pub fn input_row(&mut self, row: &[C::SymbolField])
        ensures { self.new ≡ residue_from C.SymbolField.field C.code.lower self.old row.now }
    {
        for symbol in row {
            self.input_fe(*symbol);
        }
    }

    /// The engine after a whole row. Its residue is the remainder, by the generator polynomial, of the polynomial that a
    /// leading 1 and the row's symbols make, highest power first.
    #[tactic(auto, using(algebra::proofs::Remainder::residue_remainder))]
    pub fn of_row(row: &[C::SymbolField]) -> Self
        ensures residue { result ≡ residue C.SymbolField.field C.code row.now }
        ensures remainder { IsRemainder C.SymbolField.field C.code.lower
            (reverse (C.SymbolField.field.𝟙 ∷ row.now)) result }
    {
        C::laws();
        let mut engine = Self::new();
        engine.input_row(row);
        engine
    }

    /// The residue's coefficients, lowest power first.
    pub fn residue(&self) -> &[C::SymbolField]
        ensures coefficients { result.now ≡ self.now }
        ensures as_many { length result.now ≡ checks C.code }
    {
        C::laws();
        &self.entries[..C::CHECKSUM_LENGTH]
    }

    /// Whether the residue is the code's target.
    pub fn meets_target(&self) -> bool
        ensures { Decides result (self.now ≡ C.code.target) }
    {
        C::laws();
        let mut coefficients = self.residue().iter().enumerate();
        coefficients.all(|(power, coefficient)| *coefficient == C::target_residue(power))
    }

    fn input_zeros(&mut self)
        ensures { self.new ≡ residue_from C.SymbolField.field C.code.lower self.old
            (replicate (checks C.code) C.SymbolField.field.𝟘) }
    {
        for _ in 0..C::CHECKSUM_LENGTH {
            self.input_fe(C::SymbolField::ZERO);
        }
    }

    /// From the residue to what it lacks to the target.
    pub fn subtract_from_target(&mut self)
        ensures { self.new ≡ poly_sub C.SymbolField.field C.code.target self.old }
    {
        C::laws();
        let residue = &mut self.entries[..C::CHECKSUM_LENGTH];
        for (power, coefficient) in residue.iter_mut().enumerate() {
            *coefficient = difference(C::target_residue(power), *coefficient);
        }
    }

    /// From the residue to its negative.
    pub fn negate(&mut self)
        ensures { self.new ≡ map C.SymbolField.field.neg self.old }
    {
        C::laws();
        let residue = &mut self.entries[..C::CHECKSUM_LENGTH];
        for coefficient in residue.iter_mut() {
            *coefficient = coefficient.neg();
        }
    }

    /// The k symbols that take the residue to the target, in the order of writing.
    pub fn completion(mut self) -> CheckSymbols<C>
        ensures { result ≡ completion C.SymbolField.field C.code self }
    {
        C::laws();
        self.input_zeros();
        self.subtract_from_target();
        let mut symbols = self.entries;
        symbols[..C::CHECKSUM_LENGTH].reverse();
        CheckSymbols { symbols }
    }
}

/// The k check symbols of a row, in the order of writing, in the first k entries. Unlike an engine it takes no symbols, and has
/// the highest power first.
#[derive(Drop)]
pub struct CheckSymbols<C: Checksum> {
    symbols: [C::SymbolField; 16],
}

// Clauses see the k symbols.
impl<C: Checksum> Model for CheckSymbols<C> {
    ghost Value = { List C.SymbolField };

    ghost view = { λ s. take (checks C.code) s.symbols };

    ghost invariant = { λ s. length s.symbols ≡ 16 };
}

impl<C: Checksum> CheckSymbols<C> {
    pub fn symbols(&self) -> &[C::SymbolField]
        ensures symbols { result.now ≡ self.now }
        ensures as_many { length result.now ≡ checks C.code }
    {
        C::laws();
        &self.symbols[..C::CHECKSUM_LENGTH]
    }

    /// The k symbols with ZEROs past them, as an array, which can be copied.
    pub fn padded(&self) -> [C::SymbolField; 16]
        ensures { result ≡ self.now ++ replicate (16 - length self.now) C.SymbolField.field.𝟘 }
    {
        C::laws();
        let mut symbols = [C::SymbolField::ZERO; 16];
        symbols[..C::CHECKSUM_LENGTH].copy_from_slice(self.symbols());
        symbols
    }
}

/// Whether a row is sound.
#[tactic(auto, using(crate::proofs::Sizes::engine_fits))]
pub fn is_sound<C: Checksum>(row: &[C::SymbolField]) -> bool
    ensures { Decides result (IsSoundRow C.SymbolField.field C.code row.now) }
{
    C::SymbolField::small();
    Engine::<C>::of_row(row).meets_target()
}

/// Seal: the k check symbols that make the row sound. No other k symbols do.
pub fn seal<C: Checksum>(row: &[C::SymbolField]) -> CheckSymbols<C>
    ensures checks { result ≡ seal C.SymbolField.field C.code row.now }
    ensures seals { IsOnlySeal C.SymbolField.field C.code row.now result }
{
    C::laws();
    C::SymbolField::small();
    Engine::<C>::of_row(row).completion()
}
