// Replays recorded scripts of calls on several slips. The lines:
//     script M              a script on M fresh slips begins
//     SLIP CALL = ANSWER    a call on the slip of that number, counted from 0
//     SLIP holds = ROW      what the slip holds then
// The calls are those of `read_call`, the answers those of `ReplyText`, the rows those of `write_row`.
#![tactic(auto)]

mod calls;
mod held;
mod recordings;
mod replies;
mod tally;

use recordings::Recording;
use std::io::{BufRead, BufReader};

fn main(rt: HostRuntime) -> anyhow::Result<()> {
    let heap = rt.alloc();
    let mut recording = Recording::new(heap);
    for line in BufReader::new(heap, rt.stdin())?.lines(heap) {
        recording.take_line(&rt, line?)?;
    }
    recording.make_calls(&rt)?;
    recording.print_counts(&rt)
}
