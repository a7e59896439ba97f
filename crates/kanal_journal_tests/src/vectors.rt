//! Compares the answers that `serve` gives with stored ones.
//!
//! A file holds scripts, each between the lines `script N`, `answers` and `end`.
use kanal_script::serve;
use std::alloc::{AllocError, Global};
use std::fmt;

/// What the scripts of a file came to.
#[derive(Clone, Copy, Debug, PartialEq, Eq)]
pub struct Tally {
    /// How many scripts there are.
    pub scripts: usize,
    /// How many of them are answered otherwise than stored.
    pub differing: usize,
    /// The number of the first of those.
    pub first: Option<u64>,
}

impl Tally {
    /// Counts one more script.
    fn add(&mut self, number: u64, is_same: bool) {
        self.scripts = self.scripts.saturating_add(1);
        if !is_same {
            self.differing = self.differing.saturating_add(1);
            self.first = self.first.or(Some(number));
        }
    }
}

impl fmt::Display for Tally {
    fn fmt<W: fmt::Write>(&self, f: &mut fmt::Formatter<W>) -> fmt::Result {
        let scripts = self.scripts;
        let differing = self.differing;
        write!(f, "{scripts} scripts, {differing} differ")?;
        match self.first {
            None => Ok(()),
            Some(number) => write!(f, ", the first is script {number}"),
        }
    }
}

/// A script with its stored answer, as far as they are read.
#[derive(Drop)]
struct Case {
    number: u64,
    script: String,
    answer: String,
    is_answer: bool,
}

impl Case {
    fn new(alloc: Global, number: u64) -> Case {
        Case {
            number,
            script: String::new(alloc),
            answer: String::new(alloc),
            is_answer: false,
        }
    }

    /// Adds a line to the script, or to the answer once that has begun.
    fn add(&mut self, line: &str) -> Result<(), AllocError> {
        let text = if self.is_answer {
            &mut self.answer
        } else {
            &mut self.script
        };
        text.push_str(line)?;
        text.push('\n')
    }

    /// Whether `serve` answers the script with status 0 and just the stored answer.
    fn is_same(&self, alloc: Global) -> bool {
        let mut input = self.script.as_bytes();
        let mut output = Vec::new(alloc);
        let mut errors = Vec::new(alloc);
        let status = serve(alloc, &mut input, &mut output, &mut errors);
        status == 0 && output.as_slice() == self.answer.as_bytes() && errors.is_empty()
    }
}

/// Runs each script of the text, and compares its answer with the stored one.
///
/// The number of a script is 0 where it can't be read. Lines after the last `end` are no script.
pub fn compare(alloc: Global, text: &str) -> Result<Tally, AllocError> {
    let mut tally = Tally {
        scripts: 0,
        differing: 0,
        first: None,
    };
    let mut case = Case::new(alloc, 0);
    for line in text.lines() {
        if let Some(number) = line.strip_prefix("script ") {
            case = Case::new(alloc, number.parse::<u64>().unwrap_or(0));
        } else if line == "answers" {
            case.is_answer = true;
        } else if line == "end" {
            tally.add(case.number, case.is_same(alloc));
        } else {
            case.add(line)?;
        }
    }
    Ok(tally)
}

#[cfg(test)]
mod tests {
    use super::*;
    use std::fs;
    use std::test::Fail;

    const TWO: &str =
        "script 4\ncap 1\ntry_send 7\nanswers\nyes\nend\nscript 9\ncap 0\ntry_send 7\nanswers\nno 7\nend\n";

    const ALTERED: &str =
        "script 4\ncap 1\ntry_send 7\nanswers\nyes\nend\nscript 9\ncap 0\ntry_send 7\nanswers\nno 8\nend\n";

    /// What a text of two scripts comes to.
    fn two(differing: usize, first: Option<u64>) -> Tally {
        Tally {
            scripts: 2,
            differing,
            first,
        }
    }

    #[test]
    fn finds_an_altered_answer(rt: HostRuntime) -> Result<(), Fail> {
        assert!(rt; compare(rt.alloc(), TWO)? == two(0, None));
        let altered = compare(rt.alloc(), ALTERED)?;
        assert!(rt; altered == two(1, Some(9)));
        let printed = altered.to_string(rt.alloc())?;
        assert!(rt; printed.as_str() == "2 scripts, 1 differ, the first is script 9");
        Ok(())
    }
}
