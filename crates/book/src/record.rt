// What is told of one place of a mended row.

/// A record: a place of a slip, and the change there, which is what to subtract from the symbol that it holds.
#[derive(Clone, Copy, Debug)]
pub struct Record {
    pub place: usize,
    pub change: u8,
}

/// What stands in a list where no record is yet.
pub const BLANK: Record = Record {
    place: 0,
    change: 0,
};
