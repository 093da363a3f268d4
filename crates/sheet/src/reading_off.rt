// What a mended row says: who finished, and when.
ghost use Rattle.std.specs.Prelude.{◌≡◌, ◌≤◌, length};
ghost use Rattle.sheet.specs.ReadingOff.{base_32_after, read_off, whole_seconds};

use crate::fault::LineFault;

// The last tenth of a second of a day.
const LAST_TENTH: u32 = 863_999;

/// The sail number and the tenths of a second since midnight that twelve symbols say.
pub fn read_off(symbols: &[u8]) -> Result<(u32, u32), LineFault>
    ensures { result ≡ read_off symbols.now }
{
    if symbols.len() != 12 {
        return Err(LineFault::SymbolCount);
    }
    let sail = base_32(&symbols[..4]);
    let tenths = base_32(&symbols[4..8]);
    if tenths > LAST_TENTH {
        return Err(LineFault::LateTime);
    }
    Ok((sail, tenths))
}

/// Tenths of a second as whole seconds.
pub fn whole_seconds(tenths: u32) -> u32
    ensures { result ≡ whole_seconds tenths }
{
    tenths / 10
}

// The number that digits say, the highest first.
fn base_32(digits: &[u8]) -> u32
    requires { length digits.now ≤ 4 }
    ensures { result ≡ base_32_after 0 digits.now }
{
    digits
        .iter()
        .fold(0, |number, digit| number * 32 + u32::from(*digit))
}
