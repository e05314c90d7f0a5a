// The lines of the journal's part: a group, the table of cuts, and the summaries.
use crate::cuts::Cut;
use crate::groups::Record;
use crate::images::Stood;
use crate::tally::Tally;
use failing::manner::Manner;
use std::fmt;

impl fmt::Display for Record {
    fn fmt<W: fmt::Write>(&self, f: &mut fmt::Formatter<W>) -> fmt::Result {
        let Record { head, first, last } = self;
        write!(f, "{:>5}  {first:>2} to {last}  ", head.group)?;
        for page in head.pages.iter().take(usize::from(head.count)) {
            write!(f, " {page}")?;
        }
        Ok(())
    }
}

// Seven columns. Where a recovery was refused, its refusal's number is told.
impl fmt::Display for Stood {
    fn fmt<W: fmt::Write>(&self, f: &mut fmt::Formatter<W>) -> fmt::Result {
        match self {
            Stood::Settled => f.write_str("settled"),
            Stood::Pending => f.write_str("pending"),
            Stood::Other => f.write_str("  other"),
            Stood::Refused(refusal) => write!(f, "none {:>2}", refusal.number()),
        }
    }
}

/// The cuts of a force in one manner, for printing.
#[derive(Drop)]
pub struct Row {
    pub manner: Manner,
    pub cuts: Vec<Cut>,
}

impl fmt::Display for Row {
    fn fmt<W: fmt::Write>(&self, f: &mut fmt::Formatter<W>) -> fmt::Result {
        write!(f, "{:<42}", self.manner)?;
        for cut in &self.cuts {
            write!(f, "  {}", cut.stood)?;
        }
        Ok(())
    }
}

/// The head of the table: the sectors whose writes were cut.
#[derive(Drop)]
pub struct Sectors<'a>(pub &'a [Cut]);

impl fmt::Display for Sectors<'_> {
    fn fmt<W: fmt::Write>(&self, f: &mut fmt::Formatter<W>) -> fmt::Result {
        write!(f, "{:<42}", "what the cut leaves of sector")?;
        for cut in self.0 {
            write!(f, "  {:>7}", cut.sector)?;
        }
        Ok(())
    }
}

/// What came back after the cuts of forces or of recoveries, for printing.
#[derive(Drop)]
pub struct Cuts<'a>(pub Tally, pub &'a str);

impl fmt::Display for Cuts<'_> {
    fn fmt<W: fmt::Write>(&self, f: &mut fmt::Formatter<W>) -> fmt::Result {
        let Cuts(tally, what) = self;
        let Tally { old, new, other } = tally;
        if tally.passed() {
            write!(
                f,
                "PASSED: the settled images came back after {old} cuts of {what}, the pending ones after {new}, nothing else ever"
            )
        } else {
            write!(f, "FAILED: neither came back after {other} cuts of {what}")
        }
    }
}

/// What came back after losses of sectors, for printing.
#[derive(Drop)]
pub struct Losses(pub Tally);

impl fmt::Display for Losses {
    fn fmt<W: fmt::Write>(&self, f: &mut fmt::Formatter<W>) -> fmt::Result {
        let Tally { new, other, .. } = self.0;
        if self.0.passed() {
            write!(
                f,
                "PASSED: the pending images came back after {new} losses of one sector or two neighbours while shut, nothing else ever"
            )
        } else {
            write!(
                f,
                "FAILED: they did not come back after {other} losses while shut"
            )
        }
    }
}
