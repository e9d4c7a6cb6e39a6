// How many rows there were, and how many of them were wrong.
use crate::call::Answered;
use crate::fault::RowFault;
use crate::row::Row;
use std::alloc::{AllocError, Global};
use std::io::Print;
use std::{fmt, io};

// How many bytes of what came are told.
const MOST_TOLD: usize = 600;

// The first of these bytes.
fn told(alloc: Global, bytes: &[u8]) -> Result<String, AllocError> {
    let first = bytes.get(..MOST_TOLD).unwrap_or(bytes);
    String::from_utf8_lossy(alloc, first)
}

#[derive(Drop)]
pub struct Tally {
    rows: u32,
    wrong: u32,
}

impl Tally {
    pub fn new() -> Self {
        Tally { rows: 0, wrong: 0 }
    }

    /// Counts a row, and tells what came where it is another answer than the row's.
    pub fn note(
        &mut self,
        rt: &(impl Print + AllocGlobal),
        subject: &str,
        row: &Row,
        wrong: Option<Answered>,
    ) -> io::Result<()> {
        self.rows = self.rows.saturating_add(1);
        let Some(answered) = wrong else {
            return Ok(());
        };
        self.wrong = self.wrong.saturating_add(1);
        let alloc = rt.alloc();
        let name = row.name.as_str();
        let status = answered.status;
        let written = told(alloc, &answered.written)?;
        let said = told(alloc, &answered.said)?;
        let noted = told(alloc, &answered.noted)?;
        println!(rt;
            "wrong: {subject}: {name}: status {status}, {written:?}, said {said:?}, noted {noted:?}"
        )
    }

    /// Counts a row that isn't read.
    pub fn tell_fault(
        &mut self,
        rt: &(impl Print + AllocGlobal),
        subject: &str,
        name: &[u8],
        fault: RowFault,
    ) -> io::Result<()> {
        self.rows = self.rows.saturating_add(1);
        self.wrong = self.wrong.saturating_add(1);
        let name = String::from_utf8_lossy(rt.alloc(), name)?;
        println!(rt; "wrong: {subject}: {name}: {fault}")
    }
}

impl fmt::Display for Tally {
    fn fmt<W: fmt::Write>(&self, f: &mut fmt::Formatter<W>) -> fmt::Result {
        let rows = self.rows;
        let wrong = self.wrong;
        write!(f, "{rows} rows, {wrong} wrong")
    }
}
