// The checker: it accepts a list of records, whoever proposed it, exactly if it is a pattern that fits.
ghost use Rattle.std.specs.Prelude.{◌≡◌, Decides};
ghost use Rattle.algebra.specs.Series.{Mem};
ghost use Rattle.book.specs.Mending.{record_places, undoubted_count, Fits};
ghost use Rattle.correction.specs.MendingSteps.Checked.{Admits, IsSensible, Covers, IsFormed};

use crate::subtracting::mended;
use book::Record;
use checksum::symbols::{element, number};
use checksum::{Checksum, bound};
use fields::Field;
use slip::Slip;

/// Whether records are a pattern that fits the slip by a code.
#[tactic(auto, using(checksum::proofs::Sizes::engine_fits))]
pub fn fits<C: Checksum>(slip: &Slip, records: &[Record]) -> bool
    ensures { Decides result (Fits C.rows slip.now records.now) }
{
    C::laws();
    C::SymbolField::small();
    let proposal = Proposal { slip, records };
    proposal.is_formed::<C>() && mended::<C>(slip, records).engine::<C>().meets_target()
}

// Records that are proposed for a slip.
#[derive(Clone, Copy)]
struct Proposal<'a> {
    slip: &'a Slip,
    records: &'a [Record],
}

impl Proposal<'_> {
    // Whether the records are a pattern within the bound, whatever row they lead to.
    fn is_formed<C: Checksum>(&self) -> bool
        ensures { Decides result (IsFormed C.rows self.now.slip.now self.now.records.now) }
    {
        C::laws();
        let bound = bound::<C>();
        let doubts = self.slip.doubts();
        doubts <= bound
            && self.elsewhere() <= (bound - doubts) / 2
            && self.is_sensible::<C>(number::<C>(C::SymbolField::ZERO))
            && self.covers()
    }

    // How many records name undoubted places.
    fn elsewhere(&self) -> usize
        ensures { result ≡ undoubted_count self.now.slip.now self.now.records.now }
    {
        self.records
            .iter()
            .filter(|record| !self.slip.is_doubted(record.place))
            .count()
    }

    // Whether each record can be part of a pattern, and no place is named twice.
    fn is_sensible<C: Checksum>(&self, nothing: u8) -> bool
        ensures { Decides result
            (IsSensible self.now.slip.now C.rows.size nothing self.now.records.now) }
    {
        let mut rest = self.records;
        while let Some((record, later)) = rest.split_first() {
            if !admits::<C>(self.slip, record, nothing) || names(later, record.place) {
                return false;
            }
            rest = later;
        }
        true
    }

    // Whether each doubted place is named. By place and not over the marks, since places are what the records name.
    fn covers(&self) -> bool
        ensures { Decides result (Covers self.now.slip.now self.now.records.now) }
    {
        (0..self.slip.len()).all(|place| !self.slip.is_doubted(place) || names(self.records, place))
    }
}

// Whether a record names a place of the slip and a symbol, and changes something unless the place is doubted.
fn admits<C: Checksum>(slip: &Slip, record: &Record, nothing: u8) -> bool
    ensures { Decides result (Admits slip.now C.rows.size nothing «record».now) }
{
    C::laws();
    record.place < slip.len()
        && element::<C>(record.change).is_some()
        && (slip.is_doubted(record.place) || record.change != nothing)
}

// Whether a place is named.
fn names(records: &[Record], place: usize) -> bool
    ensures { Decides result (Mem place (record_places records.now)) }
{
    records.iter().any(|record| record.place == place)
}
