//! How many runs there were, and how many of them differ from what is wanted.

use std::io;

/// What is counted of the runs.
#[derive(Drop)]
pub struct Tally {
    runs: u64,
    differ: u64,
}

impl Tally {
    pub fn new() -> Tally {
        Tally { runs: 0, differ: 0 }
    }

    /// Counts a run. One that differs is printed by its name, and a word that tells it from others of that name.
    pub fn count(
        &mut self,
        rt: &impl Print,
        name: &str,
        of: usize,
        is_as_wanted: bool,
    ) -> io::Result<()> {
        self.runs = self.runs.saturating_add(1);
        if is_as_wanted {
            return Ok(());
        }
        self.differ = self.differ.saturating_add(1);
        println!(rt; "{name} ({of}) differs")
    }

    /// Prints the sums.
    pub fn print(&self, rt: &impl Print) -> io::Result<()> {
        let runs = self.runs;
        let differ = self.differ;
        println!(rt; "{runs} runs, {differ} differ")
    }
}
