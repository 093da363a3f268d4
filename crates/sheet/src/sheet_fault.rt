// Why a line of a sheet is refused, with the line's number.
ghost use Rattle.std.specs.Prelude.{◌≡◌};
ghost use Rattle.sheet.specs.declared.sheet_fault.Cause.TheVariants.{Line as of_line, Code as of_code};

use crate::fault::LineFault;
use book::CodeFault;

/// What refuses a line of a sheet: reading it, or the code that its row is mended by.
#[derive(Clone, Copy, Debug)]
pub enum Cause {
    Line(LineFault),
    Code(CodeFault),
}

/// The line's fault, whole.
impl From<LineFault> for Cause {
    ghost from_gives = { λ fault r. r ≡ of_line fault };

    fn from(fault: LineFault) -> Cause {
        Cause::Line(fault)
    }
}

/// The code's fault, whole.
impl From<CodeFault> for Cause {
    ghost from_gives = { λ fault r. r ≡ of_code fault };

    fn from(fault: CodeFault) -> Cause {
        Cause::Code(fault)
    }
}

/// Why a sheet refuses one of its lines: the cause, whole, and the line's number beside it.
#[derive(Clone, Copy, Debug)]
pub struct SheetFault {
    pub line: usize,
    pub cause: Cause,
}
