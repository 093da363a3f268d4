// The 32 characters of the symbols. The symbol of each is its place in the set, in either case of a letter.
ghost use Rattle.std.specs.Prelude.{◌≡◌, IfSome};
ghost use Rattle.sheet.specs.Characters.{letter_case, read_character, write_character};

/// What one byte says.
#[derive(Clone, Copy, PartialEq, Eq, Debug)]
pub enum Character {
    /// A character of the set, which stands for this symbol.
    Symbol(u8),
    /// A question mark: a symbol that nobody could make out.
    QuestionMark,
}

/// The case of a letter.
#[derive(Clone, Copy, PartialEq, Eq, Debug)]
pub enum Case {
    Lower,
    Upper,
}

const SET: [u8; 32] = *b"qpzry9x8gf2tvdw0s3jn54khce6mua7l";

/// What a byte says, none where it is neither of the set nor a question mark.
pub fn read_character(byte: u8) -> Option<Character>
    ensures { result ≡ read_character byte }
{
    match byte {
        b'q' | b'Q' => Some(Character::Symbol(0)),
        b'p' | b'P' => Some(Character::Symbol(1)),
        b'z' | b'Z' => Some(Character::Symbol(2)),
        b'r' | b'R' => Some(Character::Symbol(3)),
        b'y' | b'Y' => Some(Character::Symbol(4)),
        b'9' => Some(Character::Symbol(5)),
        b'x' | b'X' => Some(Character::Symbol(6)),
        b'8' => Some(Character::Symbol(7)),
        b'g' | b'G' => Some(Character::Symbol(8)),
        b'f' | b'F' => Some(Character::Symbol(9)),
        b'2' => Some(Character::Symbol(10)),
        b't' | b'T' => Some(Character::Symbol(11)),
        b'v' | b'V' => Some(Character::Symbol(12)),
        b'd' | b'D' => Some(Character::Symbol(13)),
        b'w' | b'W' => Some(Character::Symbol(14)),
        b'0' => Some(Character::Symbol(15)),
        b's' | b'S' => Some(Character::Symbol(16)),
        b'3' => Some(Character::Symbol(17)),
        b'j' | b'J' => Some(Character::Symbol(18)),
        b'n' | b'N' => Some(Character::Symbol(19)),
        b'5' => Some(Character::Symbol(20)),
        b'4' => Some(Character::Symbol(21)),
        b'k' | b'K' => Some(Character::Symbol(22)),
        b'h' | b'H' => Some(Character::Symbol(23)),
        b'c' | b'C' => Some(Character::Symbol(24)),
        b'e' | b'E' => Some(Character::Symbol(25)),
        b'6' => Some(Character::Symbol(26)),
        b'm' | b'M' => Some(Character::Symbol(27)),
        b'u' | b'U' => Some(Character::Symbol(28)),
        b'a' | b'A' => Some(Character::Symbol(29)),
        b'7' => Some(Character::Symbol(30)),
        b'l' | b'L' => Some(Character::Symbol(31)),
        b'?' => Some(Character::QuestionMark),
        _ => None,
    }
}

/// The case of a letter; other bytes have none.
pub fn letter_case(byte: u8) -> Option<Case>
    ensures { result ≡ letter_case byte }
{
    match byte {
        b'a'..=b'z' => Some(Case::Lower),
        b'A'..=b'Z' => Some(Case::Upper),
        _ => None,
    }
}

/// The character of a symbol, none from 32 on. Reading it gives the symbol back.
pub fn write_character(symbol: u8, case: Case) -> Option<u8>
    ensures value { result ≡ write_character case symbol }
    ensures read_back { IfSome result
        (λ byte. read_character byte ≡ Some (Character.Symbol symbol)) }
{
    let small = *SET.get(usize::from(symbol))?;
    match case {
        Case::Lower => Some(small),
        Case::Upper => Some(small.to_ascii_uppercase()),
    }
}
