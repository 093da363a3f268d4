// The output line of one line of a sheet.
ghost use Rattle.std.specs.Prelude.{◌≡◌, ◌+◌, ◌≤◌, ◌++◌, take, drop};
ghost use Rattle.sheet.specs.Columns.{column};
ghost use Rattle.sheet.specs.OutputLines.{output_line};

use crate::columns::write_column;

/// What is written for one line of a sheet: a number for each column, as the format has them, so 0 where there is no refusal.
#[derive(Clone, Copy, Debug)]
pub struct Report {
    /// The line's number.
    pub line: usize,
    /// The number of its refusal, or 0.
    pub refusal: u8,
    /// How many symbols were changed.
    pub changes: usize,
    /// The boat's sail number.
    pub sail: u32,
    /// The seconds since midnight.
    pub seconds: u32,
}

/// Writes the output line: the five numbers in columns of 6, 4, 4, 8 and 8, and a newline. Of a number that is too wide for
/// its column the low digits are written.
pub fn write_output_line(report: &Report, text: &mut [u8; 31])
    ensures { text.new ≡ output_line report.now }
{
    text[30] = b'\n';
    put_column(text, 0, 6, report.line as u64);
    put_column(text, 6, 4, u64::from(report.refusal));
    put_column(text, 10, 4, report.changes as u64);
    put_column(text, 14, 8, u64::from(report.sail));
    put_column(text, 22, 8, u64::from(report.seconds));
}

// Writes a number into a column of the line.
fn put_column(text: &mut [u8; 31], at: usize, width: usize, number: u64)
    requires { at + width ≤ 31 }
    ensures { text.new ≡ take at text.old ++ (column width number ++ drop (at + width) text.old) }
{
    write_column(&mut text[at..at + width], number);
}
