// A slip: the symbols of a row as they come in, in fixed memory.
ghost use Rattle.std.specs.Prelude.{◌≡◌, ℕ, ◌<◌, length, slice_index, ◌+◌, ◌≤◌, ◌++◌, map, Ok, [], ◌∷◌};
ghost use Rattle.book.specs.Book.{answer_of, book_after, write, blank, doubt, fresh_book, row, marks, symbol_at, doubted_at, doubts, undoubted_place};
ghost use Rattle.slip.specs.View.{IsHoldable, place_at};
ghost use Rattle.algebra.specs.Code.{checks, residue, IsSoundRow};
ghost use Rattle.slip.specs.Sealing.{check_symbols, elements_of, sealed_book};

use book::{CodeFault, SlipFault};
use checksum::symbols::{element, number};
use checksum::{Checksum, Engine};
use fields::Field;
use std::marker::Model;

/// A row in the making: up to 89 symbols, each below 32, and for each place whether its symbol is doubted.
// Two arrays side by side, since each is lent as a slice, by `symbols` and by `marks`, and there is no heap to copy one to.
#[derive(Drop)]
pub struct Slip {
    symbols: [u8; 89],
    doubted: [bool; 89],
    len: usize,
}

// Clauses see the book that the slip holds.
impl Model for Slip {
    ghost use Rattle.book.specs.Book.{Book};

    ghost Value = { Book };

    ghost use Rattle.slip.specs.View.{book_of, IsFilled};

    ghost view = { book_of };

    ghost invariant = { IsFilled };
}

impl Slip {
    /// A fresh slip, which holds nothing.
    pub fn new() -> Slip
        ensures { result ≡ fresh_book }
    {
        Slip {
            symbols: [0; 89],
            doubted: [false; 89],
            len: 0,
        }
    }

    /// Appends a symbol, undoubted.
    #[tactic(auto, using(crate::proofs::Memory::steps))]
    pub fn write(&mut self, v: u8) -> Result<(), SlipFault>
        ensures answer { result ≡ answer_of (write v self.old) }
        ensures book { self.new ≡ book_after self.old (write v self.old) }
    {
        if v > 31 {
            return Err(SlipFault::Symbol);
        }
        if self.len >= 89 {
            return Err(SlipFault::Full);
        }
        self.push(v, false);
        Ok(())
    }

    /// Appends a place whose symbol was not understood: 0, doubted.
    #[tactic(auto, using(crate::proofs::Memory::steps))]
    pub fn blank(&mut self) -> Result<(), SlipFault>
        ensures answer { result ≡ answer_of (blank self.old) }
        ensures book { self.new ≡ book_after self.old (blank self.old) }
    {
        if self.len >= 89 {
            return Err(SlipFault::Full);
        }
        self.push(0, true);
        Ok(())
    }

    /// Marks a place as doubted. A place that is doubted already stays so.
    #[tactic(auto, using(crate::proofs::Memory::steps))]
    pub fn doubt(&mut self, place: usize) -> Result<(), SlipFault>
        ensures answer { result ≡ answer_of (doubt place self.old) }
        ensures book { self.new ≡ book_after self.old (doubt place self.old) }
    {
        if place >= self.len {
            return Err(SlipFault::Absent(place));
        }
        self.doubted[place] = true;
        Ok(())
    }

    /// Empties the slip.
    pub fn wipe(&mut self)
        ensures { self.new ≡ fresh_book }
    {
        self.len = 0;
    }
}

impl Slip {
    /// How many symbols the slip holds.
    #[tactic(auto, using(crate::proofs::Memory::steps))]
    pub fn len(&self) -> usize
        ensures len { result ≡ length self.now }
        ensures holdable { IsHoldable self.now }
    {
        self.len
    }

    /// The symbol at a place, none past the last.
    pub fn symbol(&self, place: usize) -> Option<u8>
        ensures { result ≡ symbol_at place self.now }
    {
        self.symbols().get(place).copied()
    }

    /// Whether a place is doubted; past the last none is.
    pub fn is_doubted(&self, place: usize) -> bool
        ensures { result ≡ doubted_at place self.now }
    {
        self.marks().get(place).copied().unwrap_or(false)
    }

    /// How many places are doubted.
    #[tactic(auto, using(book::proofs::Doubts::counted))]
    pub fn doubts(&self) -> usize
        ensures { result ≡ doubts self.now }
    {
        self.marks().iter().filter(|mark| **mark).count()
    }

    /// The row that the slip holds.
    #[tactic(auto, using(crate::proofs::Memory::steps))]
    pub fn symbols(&self) -> &[u8]
        ensures row { result.now ≡ row self.now }
        ensures holdable { IsHoldable self.now }
        ensures below { (k : ℕ) → slice_index result.now k < 32 }
    {
        &self.symbols[..self.len]
    }

    /// For each place whether it is doubted.
    #[tactic(auto, using(crate::proofs::Memory::steps))]
    pub fn marks(&self) -> &[bool]
        ensures marks { result.now ≡ marks self.now }
        ensures holdable { IsHoldable self.now }
    {
        &self.doubted[..self.len]
    }
}

impl Slip {
    /// Seal: appends the k check symbols, undoubted, that make the row sound by the code.
    #[tactic(auto, using(crate::proofs::Memory::steps))]
    pub fn seal<C: Checksum>(&mut self) -> Result<(), CodeFault>
        ensures answer { result ≡ answer_of (sealed_book C.SymbolField.numbers C.SymbolField.field C.code self.old) }
        ensures book { self.new ≡ book_after self.old (sealed_book C.SymbolField.numbers C.SymbolField.field C.code self.old) }
        ensures holdable { IsHoldable self.old }
        ensures sound { result ≡ Ok tt → IsSoundRow C.SymbolField.field C.code (elements_of C.SymbolField.numbers (row self.new)) }
    {
        C::laws();
        if self.len == 0 {
            return Err(CodeFault::Short);
        }
        if self.len + C::CHECKSUM_LENGTH > C::CODE_LENGTH {
            return Err(CodeFault::Long);
        }
        self.append_checks::<C>();
        Ok(())
    }

    /// The code's engine after the slip's row.
    #[tactic(auto, using(crate::proofs::Sealing::residue_steps))]
    pub fn engine<C: Checksum>(&self) -> Engine<C>
        ensures { result ≡ residue C.SymbolField.field C.code (elements_of C.SymbolField.numbers (row self.now)) }
    {
        C::SymbolField::small();
        let symbols = self.symbols();
        let mut engine = Engine::<C>::new();
        for symbol in symbols {
            engine.input_fe(element::<C>(*symbol).unwrap());
        }
        engine
    }

    // The check symbols, undoubted, where there is room for them.
    #[tactic(auto, using(checksum::proofs::Sizes::engine_fits))]
    fn append_checks<C: Checksum>(&mut self)
        requires { length self.old + checks C.code ≤ 89 }
        ensures { self.new ≡ self.old ++ map undoubted_place (check_symbols C.SymbolField.numbers C.SymbolField.field C.code (row self.old)) }
    {
        C::SymbolField::small();
        let checks = self.engine::<C>().completion();
        for symbol in checks.symbols() {
            self.push(number::<C>(*symbol), false);
        }
    }
}

impl Slip {
    // A place more, where there is room for it.
    #[tactic(auto, using(crate::proofs::Memory::steps))]
    fn push(&mut self, symbol: u8, doubted: bool)
        requires small { symbol < 32 }
        requires room { length self.old < 89 }
        ensures { self.new ≡ self.old ++ place_at symbol doubted ∷ [] }
    {
        self.symbols[self.len] = symbol;
        self.doubted[self.len] = doubted;
        self.len += 1;
    }
}
