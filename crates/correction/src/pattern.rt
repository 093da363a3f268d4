// Records in fixed memory.
ghost use Rattle.std.specs.Prelude.{◌≡◌, ◌≤◌, [], cond, length, Some, None, nat_le};
ghost use Rattle.correction.specs.Patterns.{Pushes};

use book::{BLANK, Record};
use std::marker::Model;

/// A list of records in fixed memory: at most sixteen, as many as the bound of any code allows.
#[derive(Clone, Copy)]
pub struct Pattern {
    records: [Record; 16],
    len: usize,
}

// Clauses see the records. What lies past them is blank, so that they alone tell the memory, and a pattern can be copied.
impl Model for Pattern {
    ghost use Rattle.std.specs.Prelude.{◌≡◌, ℕ, ◌-◌, List, ◌++◌, length, replicate};
    ghost use Rattle.book.specs.declared.record.Record.{Record};

    ghost Value = { List Record };

    ghost use Rattle.std.proofs.Common.{sym, ap, ◌∙◌, arith, length-take-le, take-append-drop};
    ghost use Rattle.correction.specs.Patterns.{IsPattern, blank_record, pattern_memory, records_of};

    ghost view = { records_of };

    ghost invariant = { IsPattern };

    ghost inverse = { pattern_memory };

    ghost inverse_ok = { λ p kept i. record {
      records = (
          ap (λ (n : ℕ). records_of p ++ replicate (16 - n) blank_record) (length-take-le p.len p.records (omega (arith, kept.sixteen, kept.few)))
          ∙ ap (λ (rest : List Record). records_of p ++ rest) (sym kept.clear)
          ∙ take-append-drop p.len p.records
          ) i;
      len = length-take-le p.len p.records (omega (arith, kept.sixteen, kept.few)) i;
    } };
}

impl Pattern {
    /// A pattern with no records.
    pub fn new() -> Pattern
        ensures { result ≡ [] }
    {
        Pattern {
            records: [BLANK; 16],
            len: 0,
        }
    }

    /// A pattern of some records, none where there are more than sixteen.
    pub fn from_slice(records: &[Record]) -> Option<Pattern>
        ensures { result ≡ cond (nat_le (length records.now) 16) (Some records.now) None }
    {
        if records.len() > 16 {
            return None;
        }
        let mut memory = [BLANK; 16];
        memory[..records.len()].copy_from_slice(records);
        Some(Pattern {
            records: memory,
            len: records.len(),
        })
    }

    /// The records, in the order in which they came.
    pub fn records(&self) -> &[Record]
        ensures records { result.now ≡ self.now }
        ensures few { length result.now ≤ 16 }
    {
        &self.records[..self.len]
    }

    /// One record more; none, and nothing changed, where there are sixteen. An `Option` of nothing, so that `?` ends a search that
    /// has no room: no caller asks why.
    pub fn push(&mut self, record: Record) -> Option<()>
        ensures { Pushes «record» self.old result self.new }
    {
        if self.len >= 16 {
            return None;
        }
        self.records[self.len] = record;
        self.len += 1;
        Some(())
    }
}
