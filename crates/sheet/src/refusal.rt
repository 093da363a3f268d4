// The numbers of all refusals, as docs/RULES.md has them. Each layer has an enum of its faults, and code tells them apart by these;
// a number is made only where one is written out. Each conversion answers what one definition in specs/Refusals.antt says.
ghost use Rattle.std.specs.Prelude.{◌≡◌};
ghost use Rattle.sheet.specs.Refusals.{call_refusal, cause_refusal, code_refusal, field_refusal, line_refusal, list_refusal, sheet_refusal, slip_refusal};
ghost use Rattle.sheet.specs.declared.refusal.Refusal.{Refusal};

use crate::fault::LineFault;
use crate::sheet_fault::{Cause, SheetFault};
use book::{CallFault, CodeFault, SlipFault};
use fields::FieldFault;
use lists::ListFault;

/// The part of the box that refuses.
#[derive(Clone, Copy, Debug)]
pub enum Layer {
    Field,
    List,
    Code,
    Slip,
    Line,
    Sheet,
}

/// What is written of a refusal: why, as a number; which part of the box refuses; and where.
#[derive(Clone, Copy, Debug)]
pub struct Refusal {
    pub number: u8,
    pub layer: Layer,
    pub place: usize,
}

impl From<FieldFault> for Refusal {
    ghost from_gives = { λ fault r. r ≡ field_refusal fault };

    fn from(fault: FieldFault) -> Refusal {
        let number = match fault {
            FieldFault::Zero => 12,
            FieldFault::Exponent => 13,
        };
        Refusal {
            number,
            layer: Layer::Field,
            place: 0,
        }
    }
}

/// A field's fault keeps its number.
impl From<ListFault> for Refusal {
    ghost from_gives = { λ fault r. r ≡ list_refusal fault };

    fn from(fault: ListFault) -> Refusal {
        let number = match fault {
            ListFault::Empty => 10,
            ListFault::Short => 11,
            ListFault::Field(fault) => Refusal::from(fault).number,
        };
        Refusal {
            number,
            layer: Layer::List,
            place: 0,
        }
    }
}

impl From<SlipFault> for Refusal {
    ghost from_gives = { λ fault r. r ≡ slip_refusal fault };

    fn from(fault: SlipFault) -> Refusal {
        let (number, place) = match fault {
            SlipFault::Symbol => (1, 0),
            SlipFault::Full => (2, 0),
            SlipFault::Absent(place) => (3, place),
        };
        Refusal {
            number,
            layer: Layer::Slip,
            place,
        }
    }
}

impl From<CodeFault> for Refusal {
    ghost from_gives = { λ fault r. r ≡ code_refusal fault };

    fn from(fault: CodeFault) -> Refusal {
        let number = match fault {
            CodeFault::Short => 4,
            CodeFault::Long => 5,
            CodeFault::Records => 6,
            CodeFault::Working => 7,
            CodeFault::Doubts => 8,
            CodeFault::Unfit => 9,
        };
        Refusal {
            number,
            layer: Layer::Code,
            place: 0,
        }
    }
}

/// A call has no layer of its own.
impl From<CallFault> for Refusal {
    ghost from_gives = { λ fault r. r ≡ call_refusal fault };

    fn from(fault: CallFault) -> Refusal {
        match fault {
            CallFault::Slip(fault) => Refusal::from(fault),
            CallFault::Code(fault) => Refusal::from(fault),
        }
    }
}

/// A slip's fault keeps its number, and the line adds the byte.
impl From<LineFault> for Refusal {
    ghost from_gives = { λ fault r. r ≡ line_refusal fault };

    fn from(fault: LineFault) -> Refusal {
        let (number, place) = match fault {
            LineFault::OnSlip(fault, byte) => (Refusal::from(fault).number, byte),
            LineFault::OutsideSet(byte) => (14, byte),
            LineFault::OtherCase(byte) => (15, byte),
            LineFault::SymbolCount => (16, 0),
            LineFault::LateTime => (17, 0),
        };
        Refusal {
            number,
            layer: Layer::Line,
            place,
        }
    }
}

impl From<Cause> for Refusal {
    ghost from_gives = { λ cause r. r ≡ cause_refusal cause };

    fn from(cause: Cause) -> Refusal {
        match cause {
            Cause::Line(fault) => Refusal::from(fault),
            Cause::Code(fault) => Refusal::from(fault),
        }
    }
}

/// The cause keeps its number and its place; the line's number is in the fault.
impl From<SheetFault> for Refusal {
    ghost from_gives = { λ fault r. r ≡ sheet_refusal fault };

    fn from(fault: SheetFault) -> Refusal {
        Refusal {
            layer: Layer::Sheet,
            ..Refusal::from(fault.cause)
        }
    }
}

/// The number of a fault of any layer.
pub fn refusal_number<E: Into<Refusal>>(fault: E) -> u8
    ensures { (refusal : Refusal) × E.converts fault refusal × (result ≡ refusal.number) }
{
    fault.into().number
}
