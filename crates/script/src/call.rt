// Making one call on a slip.
ghost use Rattle.std.specs.Prelude.{◌≡◌};
ghost use Rattle.book.specs.Calls.{Follows, IsDecided, solve, settle};
ghost use Rattle.book.specs.Promise.{KeepsPromise};
ghost use Rattle.script.specs.Script.{book_call, book_answer, workspace_after_call, workspace_after_reply};

use crate::codes::CodeSet;
use crate::listing::Listing;
use crate::script::{Answer, Call, Lent, Reply};
use slip::Slip;

/// Makes one call on a slip. The book before and the call decide the answer and the book after; and of every code of the set
/// the promise holds: a near row is given where no other reason refuses the call, where none is near every answer is a refusal,
/// and right after a solve that lists, a solve or settle with one more place doubted gives the same row or is refused. A search
/// leaves ZEROs where it worked, and a refusal before it leaves the workspace as it was.
pub fn call<K: CodeSet>(slip: &mut Slip, call: Call<K>, workspace: &mut K::Workspace) -> Reply
    ensures follows { Follows slip.old (book_call K.codes call) (book_answer result) slip.new }
    ensures decided { IsDecided (book_call K.codes call) }
    ensures promise { (k : K) → KeepsPromise (K.codes k) }
    ensures working { workspace.new ≡ workspace_after_call K.cleared call result workspace.old }
{
    K::laws();
    answer(slip, call, workspace)
}

// The call and its answer.
fn answer<K: CodeSet>(slip: &mut Slip, call: Call<K>, workspace: &mut K::Workspace) -> Reply
    ensures follows { Follows slip.old (book_call K.codes call) (book_answer result) slip.new }
    ensures working { workspace.new ≡ workspace_after_call K.cleared call result workspace.old }
{
    match call {
        Call::Write(v) => slip.write(v)?,
        Call::Blank => slip.blank()?,
        Call::Doubt(place) => slip.doubt(place)?,
        Call::Wipe => slip.wipe(),
        Call::Seal(code) => code.seal(slip)?,
        Call::Solve(code, lent) => return solve_step(slip, code, lent, workspace),
        Call::Settle(code, lent) => return settle_step(slip, code, lent, workspace),
    }
    Ok(Answer::Done)
}

// A solve: the search alone.
fn solve_step<K: CodeSet>(slip: &Slip, code: K, lent: Lent, workspace: &mut K::Workspace) -> Reply
    ensures follows { Follows slip.now (solve (K.codes code) lent.records lent.working)
        (book_answer result) slip.now }
    ensures working { workspace.new
        ≡ workspace_after_reply (K.cleared code lent.working) result workspace.old }
{
    let found = code.find(slip, lent, workspace)?;
    Ok(Answer::Listed(Listing::new(found.pattern, found.nonzero)))
}

// A settle: the search, and what it found put in place of the slip.
fn settle_step<K: CodeSet>(
    slip: &mut Slip,
    code: K,
    lent: Lent,
    workspace: &mut K::Workspace,
) -> Reply
    ensures follows { Follows slip.old (settle (K.codes code) lent.records lent.working)
        (book_answer result) slip.new }
    ensures working { workspace.new
        ≡ workspace_after_reply (K.cleared code lent.working) result workspace.old }
{
    let found = code.find(slip, lent, workspace)?;
    let listing = Listing::new(found.pattern, found.nonzero);
    *slip = found.mended;
    Ok(Answer::Listed(listing))
}
