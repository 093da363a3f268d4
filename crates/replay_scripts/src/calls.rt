// The calls as scripts write them.
use anyhow::{Context, anyhow};
use checksum::{Bech32, Finish};
use either::{Either, Left, Right};
use script::{Call, Lent, Single};
use std::alloc::Global;
use std::marker::PhantomData;

/// The codes that a script can name.
pub type Codes = Either<Single<Finish>, Single<Bech32>>;

/// A call by its name and its arguments. R and W say how many records and how many elements are lent.
pub fn read_call(heap: Global, text: &str) -> anyhow::Result<Call<Codes>> {
    let words: Vec<&str> = text.split(' ').collect(heap)?;
    match *words.as_slice() {
        ["write", symbol] => Ok(Call::Write(symbol.parse()?)),
        ["blank"] => Ok(Call::Blank),
        ["doubt", place] => Ok(Call::Doubt(place.parse()?)),
        ["wipe"] => Ok(Call::Wipe),
        ["seal", code] => Ok(Call::Seal(read_code(code)?)),
        ["solve", code, r, w] => Ok(Call::Solve(read_code(code)?, read_lent(r, w)?)),
        ["settle", code, r, w] => Ok(Call::Settle(read_code(code)?, read_lent(r, w)?)),
        _ => Err(anyhow!("an unknown call")),
    }
}

fn read_code(name: &str) -> anyhow::Result<Codes> {
    match name {
        "finish" => Ok(Left(Single { code: PhantomData })),
        "sheet" => Ok(Right(Single { code: PhantomData })),
        _ => Err(anyhow!("an unknown code")),
    }
}

fn read_lent(records: &str, working: &str) -> anyhow::Result<Lent> {
    Ok(Lent {
        records: records.parse()?,
        working: working.parse()?,
    })
}
