// A recording of scripts, read line by line. Calls are collected until the row of a slip or the next script is read, so that one
// run makes many of them.
use crate::calls::{Codes, read_call};
use crate::held::write_row;
use crate::replies::ReplyText;
use crate::tally::Tally;
use anyhow::{Context, anyhow};
use script::run::run;
use script::{Answer, CodeSet, Step};
use slip::Slip;
use std::alloc::Global;

#[derive(Drop)]
pub struct Recording {
    slips: Vec<Slip>,
    // Calls that are not yet made, and their lines.
    steps: Vec<Step<Codes>>,
    lines: Vec<String>,
    tally: Tally,
}

impl Recording {
    pub fn new(heap: Global) -> Recording {
        Recording {
            slips: Vec::new(heap),
            steps: Vec::new(heap),
            lines: Vec::new(heap),
            tally: Tally::new(),
        }
    }

    /// Reads one more line. A line that begins with # is passed over; one that cannot be read ends the run.
    pub fn take_line(&mut self, rt: &HostRuntime, line: String) -> anyhow::Result<()> {
        if line.as_str().starts_with('#') {
            return Ok(());
        }
        if let Some(count) = line.as_str().strip_prefix("script ") {
            return self.begin_script(rt, count.parse::<usize>()?);
        }
        let (command, _) = line
            .as_str()
            .split_once(" = ")
            .context("a line without an answer")?;
        let (number, command) = command.split_once(' ').context("a line without a slip")?;
        let slip = number.parse::<usize>()?;
        if command == "holds" {
            return self.compare_row(rt, line.as_str(), slip);
        }
        // A step that names no slip would keep its reply, which nothing may be read from.
        if slip >= self.slips.len() {
            return Err(anyhow!("a slip that the script does not have"));
        }
        let call = read_call(rt.alloc(), command)?;
        self.steps.push(Step { slip, call })?;
        self.lines.push(line)?;
        Ok(())
    }

    fn begin_script(&mut self, rt: &HostRuntime, slips: usize) -> anyhow::Result<()> {
        self.make_calls(rt)?;
        self.slips.clear();
        for _ in 0..slips {
            self.slips.push(Slip::new())?;
        }
        Ok(())
    }

    fn compare_row(&mut self, rt: &HostRuntime, line: &str, slip: usize) -> anyhow::Result<()> {
        self.make_calls(rt)?;
        let slip = self
            .slips
            .get(slip)
            .context("a slip that the script does not have")?;
        let held = write_row(rt.alloc(), slip)?;
        self.tally.compare(rt, line, held.as_str())
    }

    /// Makes the calls that are collected, and compares each reply with the one that its line owes.
    pub fn make_calls(&mut self, rt: &HostRuntime) -> anyhow::Result<()> {
        let heap = rt.alloc();
        let mut replies = vec![in heap; Ok(Answer::Done); self.steps.len()]?;
        run(
            self.slips.as_mut_slice(),
            self.steps.as_slice(),
            replies.as_mut_slice(),
            &mut Codes::workspace(),
        );
        for (line, reply) in self.lines.iter().zip(replies.iter()) {
            let text = ReplyText(*reply).to_string(heap)?;
            self.tally.compare(rt, line.as_str(), text.as_str())?;
        }
        self.steps.clear();
        self.lines.clear();
        Ok(())
    }

    pub fn print_counts(&self, rt: &HostRuntime) -> anyhow::Result<()> {
        self.tally.print(rt)
    }
}
