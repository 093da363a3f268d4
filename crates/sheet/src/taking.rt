// A typed line, taken onto a slip.
ghost use Rattle.std.specs.Prelude.{◌≡◌, ◌+◌, ◌<◌, ◌^◌, length, true, false, [], ◌∷◌, Ok, Err};
ghost use Rattle.sheet.specs.Calls.{all_done, calls_of};
ghost use Rattle.sheet.specs.Taking.{before_slash, is_other_case, line_case, book_outcome, book_after_byte, book_after_bytes, book_after_parts, fault_at, take_line};
ghost use Rattle.sheet.specs.Barred.{IsBarred};
ghost use Rattle.sheet.specs.Pieces.{pieces};
ghost use Rattle.sheet.specs.declared.taking.ByteFault.TheVariants.{OnSlip as of_slip};
ghost use Rattle.book.specs.Book.{book_after, answer_of, fresh_book};
ghost use Rattle.book.specs.Calls.{done, wipe};
ghost use Rattle.book.specs.Story.{Leads};

use crate::characters::{Case, Character, letter_case, read_character};
use crate::fault::LineFault;
use crate::pieces::{Piece, Pieces};
use book::SlipFault;
use slip::Slip;

/// Why a byte is refused, at whatever place.
#[derive(Clone, Copy, Debug)]
pub enum ByteFault {
    /// The slip refuses what the byte says.
    OnSlip(SlipFault),
    /// It is outside the set, or a question mark in a line in which nothing may be unknown.
    OutsideSet,
    /// It is a letter that has not the line's case.
    OtherCase,
}

impl From<SlipFault> for ByteFault {
    ghost from_gives = { λ fault r. r ≡ of_slip fault };

    fn from(fault: SlipFault) -> ByteFault {
        ByteFault::OnSlip(fault)
    }
}

impl ByteFault {
    // Why the line is refused that has the byte at this place.
    fn at(self, place: usize) -> LineFault
        ensures { result ≡ fault_at place self }
    {
        match self {
            ByteFault::OnSlip(fault) => LineFault::OnSlip(fault, place),
            ByteFault::OutsideSet => LineFault::OutsideSet(place),
            ByteFault::OtherCase => LineFault::OtherCase(place),
        }
    }
}

/// Takes a typed line onto a slip: wipes it, then writes each character of the line's groups, a question mark as a blank. The
/// first bad byte refuses the line and leaves the slip empty.
pub fn take_line(slip: &mut Slip, line: &[u8]) -> Result<(), LineFault>
    ensures answer { result ≡ answer_of (take_line true line.now) }
    ensures book { slip.new ≡ book_after fresh_book (take_line true line.now) }
    ensures leads { result ≡ Ok tt → Leads slip.old (all_done (calls_of line.now)) slip.new }
    ensures wiped { (fault : LineFault) → result ≡ Err fault
        → Leads slip.old ((wipe, done) ∷ []) slip.new }
    ensures barred { (fault : LineFault) → result ≡ Err fault
        → IsBarred (line_case (before_slash line.now)) (before_slash line.now) fault }
{
    take(slip, line, true)
}

/// Takes a line in which nothing is unknown: a question mark is refused as a byte outside the set.
pub fn take_known_line(slip: &mut Slip, line: &[u8]) -> Result<(), LineFault>
    ensures answer { result ≡ answer_of (take_line false line.now) }
    ensures book { slip.new ≡ book_after fresh_book (take_line false line.now) }
{
    take(slip, line, false)
}

// Whether a line may hold blanks is a bool, as in the clauses: the two functions above give each choice its name.
fn take(slip: &mut Slip, line: &[u8], blanks: bool) -> Result<(), LineFault>
    ensures answer { result ≡ answer_of (take_line blanks line.now) }
    ensures book { slip.new ≡ book_after fresh_book (take_line blanks line.now) }
{
    slip.wipe();
    let taken = take_pieces(slip, line, line_case(before_slash(line)), blanks);
    if taken.is_err() {
        slip.wipe();
    }
    taken
}

// The part of a line that holds its groups.
pub(crate) fn before_slash(line: &[u8]) -> &[u8]
    ensures { result.now ≡ before_slash line.now }
{
    let end = line
        .iter()
        .position(|byte| *byte == b'/')
        .unwrap_or(line.len());
    &line[..end]
}

// The case of the first letter, small where there is none.
pub(crate) fn line_case(line: &[u8]) -> Case
    ensures { result ≡ line_case line.now }
{
    line.iter()
        .find_map(|byte| letter_case(*byte))
        .unwrap_or(Case::Lower)
}

fn take_pieces(slip: &mut Slip, line: &[u8], case: Case, blanks: bool) -> Result<(), LineFault>
    ensures { book_outcome result slip.new
        ≡ book_after_parts blanks case (pieces line.now) slip.old }
{
    for piece in Pieces::new(line) {
        if let Piece::Group(start, bytes) = piece {
            take_group(slip, start, bytes, case, blanks)?;
        }
    }
    Ok(())
}

fn take_group(
    slip: &mut Slip,
    start: usize,
    bytes: &[u8],
    case: Case,
    blanks: bool,
) -> Result<(), LineFault>
    requires { start + length bytes.now < 2 ^ 64 }
    ensures { book_outcome result slip.new ≡ book_after_bytes blanks case start bytes.now slip.old }
{
    for (i, byte) in bytes.iter().enumerate() {
        take_byte(slip, *byte, case, blanks).map_err(|fault| fault.at(start + i))?;
    }
    Ok(())
}

// That a byte is outside the set comes before that it is in the other case, and that before want of room.
fn take_byte(slip: &mut Slip, byte: u8, case: Case, blanks: bool) -> Result<(), ByteFault>
    ensures { book_outcome result slip.new ≡ book_after_byte blanks case byte slip.old }
{
    if byte == b' ' {
        return Ok(());
    }
    match read_character(byte).ok_or(ByteFault::OutsideSet)? {
        Character::Symbol(_) if is_other_case(byte, case) => Err(ByteFault::OtherCase),
        Character::Symbol(symbol) => Ok(slip.write(symbol)?),
        Character::QuestionMark if blanks => Ok(slip.blank()?),
        Character::QuestionMark => Err(ByteFault::OutsideSet),
    }
}

fn is_other_case(byte: u8, case: Case) -> bool
    ensures { result ≡ is_other_case case byte }
{
    letter_case(byte).is_some_and(|own| own != case)
}
