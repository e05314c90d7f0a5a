// The lines of the report: a trial, and the summary.
use crate::tally::Tally;
use crate::trials::{Came, Trial};
use std::fmt;

impl fmt::Display for Came {
    fn fmt<W: fmt::Write>(&self, f: &mut fmt::Formatter<W>) -> fmt::Result {
        f.pad(match self {
            Came::Old => "the old sheet",
            Came::New => "the new sheet",
            Came::Other => "something else",
        })
    }
}

impl fmt::Display for Trial {
    fn fmt<W: fmt::Write>(&self, f: &mut fmt::Formatter<W>) -> fmt::Result {
        match self.cut {
            Some(sector) => write!(f, "sector {sector:<14}")?,
            None => write!(f, "{:<21}", "no write")?,
        }
        write!(f, "{:<45}", self.manner)?;
        for readable in self.readable {
            write!(f, " {}", if readable { '.' } else { 'x' })?;
        }
        write!(f, "       {}, from sector {}", self.came, self.source)
    }
}

impl fmt::Display for Tally {
    fn fmt<W: fmt::Write>(&self, f: &mut fmt::Formatter<W>) -> fmt::Result {
        let Tally { old, new, .. } = self;
        if self.passed() {
            write!(
                f,
                "PASSED: the old sheet came back after {old} cuts, the new sheet after {new}, nothing else ever"
            )
        } else {
            write!(f, "FAILED: something else than the two sheets came back")
        }
    }
}
