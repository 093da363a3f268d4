// What is asked of slips, and what they answer.
use crate::listing::Listing;
use book::CallFault;

/// How much memory a call is lent.
#[derive(Clone, Copy)]
pub struct Lent {
    /// How many records to list into.
    pub records: usize,
    /// How many elements to work in.
    pub working: usize,
}

/// A call on a slip, with its arguments. K is a set of codes: a value of it names the code of the call.
#[derive(Clone, Copy)]
pub enum Call<K> {
    /// Append a symbol.
    Write(u8),
    /// Append a place whose symbol was not understood.
    Blank,
    /// Mark a place as doubted.
    Doubt(usize),
    /// Empty the slip.
    Wipe,
    /// Append the check symbols of a code.
    Seal(K),
    /// List how the row becomes the row near it by a code.
    Solve(K, Lent),
    /// The same, and then hold that row, nothing doubted.
    Settle(K, Lent),
}

/// One step of a script: a call, and the number of the slip that it is made on.
#[derive(Clone, Copy)]
pub struct Step<K> {
    pub slip: usize,
    pub call: Call<K>,
}

/// What a call tells that was done. No `Option` of a listing: a call that lists nothing was done all the same, and says so by name.
#[derive(Clone, Copy)]
pub enum Answer {
    /// There is nothing to tell.
    Done,
    /// A row is near: what changes the slip's row into it.
    Listed(Listing),
}

/// What a call answers. Where it is refused, the slip is as it was.
pub type Reply = Result<Answer, CallFault>;
