// How many cases were worked out, and how many of them differ.
use replay::lines::difference;
use std::alloc::Global;

#[derive(Drop)]
pub struct Tally {
    cases: u64,
    differences: u64,
}

impl Tally {
    pub fn new() -> Tally {
        Tally {
            cases: 0,
            differences: 0,
        }
    }

    /// Counts one case, and prints its line where what was worked out is not what the line owes.
    pub fn compare(&mut self, rt: &HostRuntime, line: &str, ours: &str) -> anyhow::Result<()> {
        self.cases = self.cases.saturating_add(1);
        let answer = |heap: Global, _: &str| Ok(String::from_str(heap, ours)?);
        if let Some(ours) = difference(rt.alloc(), line, answer)? {
            println!(rt; "{line}: worked out {ours}")?;
            self.differences = self.differences.saturating_add(1);
        }
        Ok(())
    }

    pub fn print(&self, rt: &HostRuntime) -> anyhow::Result<()> {
        println!(rt; "{} cases, {} differences", self.cases, self.differences)?;
        Ok(())
    }
}
