// What a slip holds, as scripts write it.
use replay::commas::WithCommas;
use slip::Slip;
use std::alloc::Global;
use std::fmt;
use std::fmt::Display;

// A place of a slip: its symbol, and a question mark after it where it is doubted.
#[derive(Clone, Copy)]
struct HeldPlace {
    symbol: u8,
    doubted: bool,
}

impl Display for HeldPlace {
    fn fmt<W: fmt::Write>(&self, f: &mut fmt::Formatter<W>) -> fmt::Result {
        if self.doubted {
            write!(f, "{}?", self.symbol)
        } else {
            write!(f, "{}", self.symbol)
        }
    }
}

/// The places of a slip with commas between, or a single - where it is empty.
pub fn write_row(heap: Global, slip: &Slip) -> anyhow::Result<String> {
    let mut places = Vec::new(heap);
    for (symbol, doubted) in slip.symbols().iter().zip(slip.marks()) {
        places.push(HeldPlace {
            symbol: *symbol,
            doubted: *doubted,
        })?;
    }
    Ok(WithCommas(places.as_slice()).to_string(heap)?)
}
