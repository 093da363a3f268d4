// Running a script.
ghost use Rattle.std.specs.Prelude.{length};
ghost use Rattle.book.specs.Calls.{IsDecided};
ghost use Rattle.book.specs.Promise.{KeepsPromise};
ghost use Rattle.script.specs.declared.script.Call.{Call};
ghost use Rattle.script.specs.Script.{book_call, LeadsEachSlip, LeadsEachFreshSlip, LeavesReplies};

use crate::call::call;
use crate::codes::CodeSet;
use crate::script::{Reply, Step};
use slip::Slip;

/// Runs a script: makes the calls of the steps one after another, each on the slip that its step names, and puts each answer
/// at its step's place among the replies. A step that names no slip is passed over; where replies are fewer than steps,
/// the script stops there.
///
/// For each slip, the calls on it and their replies lead from the book that it held to the book that it holds; from
/// fresh slips they are its story. Each answer and each book is decided by the book before and the call. And of every
/// code of the set the promise holds: a near row is given where no other reason refuses the call, where none is near every
/// answer is a refusal, and right after a solve that lists, a solve or settle with one more place doubted gives the same row or
/// is refused.
pub fn run<K: CodeSet>(
    slips: &mut [Slip],
    steps: &[Step<K>],
    replies: &mut [Reply],
    workspace: &mut K::Workspace,
)
    ensures stories { LeadsEachSlip K.codes slips.old steps.now replies.new slips.new }
    ensures fresh { LeadsEachFreshSlip K.codes slips.old steps.now replies.new slips.new }
    ensures decided { (call : Call K) → IsDecided (book_call K.codes call) }
    ensures promise { (k : K) → KeepsPromise (K.codes k) }
    ensures clear { K.clear workspace.old → K.clear workspace.new }
    ensures untouched { LeavesReplies (length slips.old) steps.now replies.old replies.new }
{
    K::laws();
    K::stays_clear();
    // Slips and replies are reached by their numbers: after a slice's `get_mut`, or an `iter_mut` in a `zip`, nothing is known
    // of what the slice holds, so that neither the stories nor the untouched replies could be told.
    let count = steps.len().min(replies.len());
    for (i, step) in steps[..count].iter().enumerate() {
        if step.slip < slips.len() {
            replies[i] = call(&mut slips[step.slip], step.call, workspace);
        }
    }
}
