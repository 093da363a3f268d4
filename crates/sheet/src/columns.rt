// A number in a column: decimals, right-justified, with spaces before them.
ghost use Rattle.std.specs.Prelude.{◌≡◌, ℕ, ◌^◌, ◌<◌, length, Some};
ghost use Rattle.sheet.specs.Columns.{column, read_column};

/// Writes a number into a column. Of a number that is too wide for it the low digits are written, and none into no bytes.
pub fn write_column(out: &mut [u8], number: u64)
    ensures value { out.new ≡ column (length out.old) number }
    ensures read_back { 0 < length out.old → number < 10 ^ length out.old
        → read_column out.new ≡ Some number }
{
    // By hand, since `write!` keeps the high digits too. The low ones come first, so the column is turned round at the end.
    let mut rest = number;
    for (written, place) in out.iter_mut().enumerate() {
        *place = if rest == 0 && written > 0 {
            b' '
        } else {
            b'0' + (rest % 10) as u8
        };
        rest /= 10;
    }
    out.reverse();
}
