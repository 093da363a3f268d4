// Why a call on a slip is refused.
ghost use Rattle.std.specs.Prelude.{◌≡◌};
ghost use Rattle.book.specs.declared.call_fault.CallFault.TheVariants.{Slip as of_slip, Code as of_code};

use crate::code_fault::CodeFault;
use crate::slip_fault::SlipFault;

/// Why a call on a slip is refused: by the slip, or by the code that it is to be sealed or mended by.
#[derive(Clone, Copy, Debug)]
pub enum CallFault {
    Slip(SlipFault),
    Code(CodeFault),
}

/// The slip's fault, whole.
impl From<SlipFault> for CallFault {
    ghost from_gives = { λ fault r. r ≡ of_slip fault };

    fn from(fault: SlipFault) -> CallFault {
        CallFault::Slip(fault)
    }
}

/// The code's fault, whole.
impl From<CodeFault> for CallFault {
    ghost from_gives = { λ fault r. r ≡ of_code fault };

    fn from(fault: CodeFault) -> CallFault {
        CallFault::Code(fault)
    }
}
