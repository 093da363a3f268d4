// The pieces of a typed line: its groups of characters, and the remark after the first slash.
ghost use Rattle.std.specs.Prelude.{◌≡◌, ◌≤◌, length, drop};
ghost use Rattle.std.specs.Iterator.{YieldsFirstBy, item_count};
ghost use Rattle.sheet.specs.Pieces.{leading_group, pieces, leading_spaces};
ghost use Rattle.sheet.specs.Cursors.{part_of, remaining_pieces};

/// A piece of a line, as the bytes of the line themselves, after the place of the first.
#[derive(Clone, Copy)]
pub enum Piece<'a> {
    /// A longest run of bytes before the first slash without a space.
    Group(usize, &'a [u8]),
    /// What follows the first slash: every byte may stand there, or none.
    Remark(usize, &'a [u8]),
}

/// A cursor over the pieces of a line: the groups in their order, then the remark.
#[derive(Drop)]
pub struct Pieces<'a> {
    line: &'a [u8],
    // How many bytes of the line are done.
    place: usize,
}

impl<'a> Pieces<'a> {
    pub fn new(line: &'a [u8]) -> Pieces<'a>
        ensures { remaining_pieces result ≡ pieces line.now }
    {
        Pieces { line, place: 0 }
    }

    // What is left of the line.
    fn rest(&self) -> &'a [u8]
        ensures { result.now ≡ drop self.now.place self.now.line.now }
    {
        self.line.get(self.place..).unwrap_or(&[])
    }
}

impl<'a> Iterator for Pieces<'a> {
    type Item = Piece<'a>;

    ghost next_gives = { YieldsFirstBy part_of remaining_pieces };

    ghost remaining = { item_count remaining_pieces };

    fn next(&mut self) -> Option<Piece<'a>> {
        let spaces = leading_spaces(self.rest());
        let place = self.place + spaces;
        let ahead = &self.rest()[spaces..];
        let (first, remark) = ahead.split_first()?;
        if *first == b'/' {
            self.place = self.line.len();
            return Some(Piece::Remark(place + 1, remark));
        }
        let group = &ahead[..leading_group(ahead)];
        self.place = place + group.len();
        Some(Piece::Group(place, group))
    }
}

// How many spaces stand at the front. The search is that of the next function but for its test, one line in each.
fn leading_spaces(bytes: &[u8]) -> usize
    ensures value { result ≡ leading_spaces bytes.now }
    ensures bound { result ≤ length bytes.now }
{
    bytes
        .iter()
        .position(|byte| *byte != b' ')
        .unwrap_or(bytes.len())
}

// How many bytes stand at the front that are neither a space nor a slash.
fn leading_group(bytes: &[u8]) -> usize
    ensures value { result ≡ leading_group bytes.now }
    ensures bound { result ≤ length bytes.now }
{
    bytes
        .iter()
        .position(|byte| *byte == b' ' || *byte == b'/')
        .unwrap_or(bytes.len())
}
