// What a solve or a settle lists.
ghost use Rattle.std.specs.Prelude.{◌≡◌, ◌≤◌, length};

use book::Record;
use correction::Pattern;

/// The records of a mended row, at most sixteen, and how many of them change something.
#[derive(Clone, Copy)]
pub struct Listing {
    records: Pattern,
    nonzero: usize,
}

impl Listing {
    pub(crate) fn new(records: Pattern, nonzero: usize) -> Listing
        ensures records { result.records ≡ records }
        ensures nonzero { result.nonzero ≡ nonzero }
    {
        Listing { records, nonzero }
    }

    /// The records, in the order in which they are listed.
    pub fn records(&self) -> &[Record]
        ensures records { result.now ≡ self.now.records }
        ensures few { length result.now ≤ 16 }
    {
        self.records.records()
    }

    /// How many of the records change something: the others are of doubted places that held the right symbol.
    pub fn nonzero(&self) -> usize
        ensures { result ≡ self.now.nonzero }
    {
        self.nonzero
    }
}
