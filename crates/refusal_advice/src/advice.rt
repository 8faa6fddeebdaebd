// Lines of advice.

use session_values::NoMemory;
use std::alloc::Global;

/// What is advised, line by line.
#[derive(Drop)]
pub(crate) struct Advice {
    alloc: Global,
    lines: Vec<String>,
}

impl Advice {
    /// Nothing yet.
    pub(crate) fn new(alloc: Global) -> Advice {
        Advice {
            alloc,
            lines: Vec::new(alloc),
        }
    }

    pub(crate) fn alloc(&self) -> Global {
        self.alloc
    }

    pub(crate) fn into_lines(self) -> Vec<String> {
        let Advice { alloc: _, lines } = self;
        lines
    }

    /// Appends a line of these parts.
    pub(crate) fn say(&mut self, parts: &[&str]) -> Result<(), NoMemory> {
        let mut line = String::new(self.alloc);
        for part in parts {
            line.push_str(part)?;
        }
        self.lines.push(line)?;
        Ok(())
    }
}
