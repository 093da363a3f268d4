// Recorded answers, one a line. A line is `COMMAND = ANSWER`, where the answer is what the original program gave, or
// `COMMAND = ANSWER ! OURS`, where our rules ask for another; a line that begins with # is passed over.
// No contract can say what a program reads or prints, so the contracts here are those of one line.
ghost use Rattle.std.specs.Prelude.{MatchOption, MatchResult, string_bytes};
ghost use Rattle.replay.specs.Lines.{Lacks, IsRecord, IsOwed, IsDifference, HasNoAnswer, equals};

use anyhow::Context;
use std::alloc::Global;
use std::io::{BufRead, BufReader};

// What a line records: a command, and the answer that it owes.
#[derive(Clone, Copy)]
struct Recorded<'a> {
    command: &'a str,
    owed: &'a str,
}

// The answer that is owed, of those that a line records.
fn owed(answers: &str) -> &str
    ensures { IsOwed answers.now result.now }
{
    let (_, last) = answers.split_once(" ! ").unwrap_or(("", answers));
    last.trim()
}

fn read_line(line: &str) -> Option<Recorded<'_>>
    ensures { MatchOption result (Lacks equals line.now) (λ r. IsRecord line.now r.command.now r.owed.now) }
{
    let (command, answers) = line.split_once(" = ")?;
    Some(Recorded {
        command,
        owed: owed(answers),
    })
}

/// What is worked out for a line's command, where that is not the answer that the line owes.
pub fn difference<F: Fn(Global, &str) -> anyhow::Result<String>>(
    heap: Global,
    line: &str,
    answer: F,
) -> anyhow::Result<Option<String>>
    requires { F.IsAlwaysCallable answer }
    ensures { let gives = F.post answer heap in
        MatchResult result (IsDifference string_bytes gives line.now) (HasNoAnswer gives line.now) }
{
    let recorded = read_line(line).context("a line without an answer")?;
    let ours = answer(heap, recorded.command)?;
    if ours.as_str() == recorded.owed {
        Ok(None)
    } else {
        Ok(Some(ours))
    }
}

/// Works out each line of standard input, prints each difference, and last how many there were. A line that cannot be
/// read ends the run.
pub fn replay<F: Fn(Global, &str) -> anyhow::Result<String>>(
    rt: &HostRuntime,
    answer: F,
) -> anyhow::Result<()>
    requires { F.IsAlwaysCallable answer }
{
    let heap = rt.alloc();
    let mut cases = 0u64;
    let mut differences = 0u64;
    for line in BufReader::new(heap, rt.stdin())?.lines(heap) {
        let line = line?;
        if line.as_str().starts_with('#') {
            continue;
        }
        cases = cases.saturating_add(1);
        if let Some(ours) = difference(heap, line.as_str(), &answer)? {
            println!(rt; "{line}: worked out {ours}")?;
            differences = differences.saturating_add(1);
        }
    }
    println!(rt; "{cases} cases, {differences} differences")?;
    Ok(())
}

#[cfg(test)]
mod tests {
    use super::*;

    fn same(heap: Global, command: &str) -> anyhow::Result<String> {
        Ok(String::from_str(heap, command)?)
    }

    #[test]
    fn differs_from_what_is_owed(rt: HostRuntime) -> anyhow::Result<()> {
        for (line, ours) in [
            ("a = a", None),
            ("a = b", Some("a")),
            ("a = b ! a ", None),
            ("a = a ! b", Some("a")),
        ] {
            let found = difference(rt.alloc(), line, same)?;
            assert_eq!(rt; found.as_ref().map(|text| text.as_str()), ours, "at {line}");
        }
        Ok(())
    }
}
