//! A case of a table: what a command is given, and what it is to write.
//!
//! A line that begins with one of these says what comes after it, and each other line is of the text that the table is of:
//! - `= `: a line that is wanted, of the text that is written and then of the line on the status;
//! - `words: `: the command's words, whose files are `q`, `s`, `p`, `c`, `t` and `r`; else they follow from the files;
//! - `switch: `, `plan: `: a line of a switch text or of a plan text;
//! - `header: `, `link: `: the capture's header, or its link type, in hexadecimal digits;
//! - `record: `: bytes after the header; `frame: `: a record with these bytes, at one second;
//! - `syn: `: records of SYNs, each by its microseconds after one second, s and d of 10.0.0.s and 10.0.0.d, and its length;
//! - `six: `: records of SYNs over IPv6, each by its microseconds after one second, s, d and n of 2001:db8::s and
//!   2001:db8:0:n::d;
//! - `train: `: records of SYNs of the training capture, which else is the other one;
//! - `reports: `: bytes of report frames.
use crate::packets::{HEADER, push_frame, push_hex, push_sixes, push_syns};
use crate::trouble::Trouble;
use std::alloc::Global;

/// The files that a command is given, its words, and the text and line that are wanted of it.
#[derive(Drop)]
pub struct Case {
    /// The command's words, with blanks between them.
    pub words: String,
    /// The lines that begin with no word of their own: a query text, or what else the table is of.
    pub text: String,
    /// The switch text.
    pub switch: String,
    /// The plan text.
    pub plan: String,
    /// The capture's header.
    pub header: Vec<u8>,
    /// The records of the capture.
    pub records: Vec<u8>,
    /// The records of the training capture.
    pub trained: Vec<u8>,
    /// The bytes of the report frames.
    pub reports: Vec<u8>,
    /// The text that is wanted, and then the line.
    pub wanted: String,
}

/// Adds a line.
fn push_line(into: &mut String, line: &str) -> Result<(), Trouble> {
    into.push_str(line)?;
    into.push_str("\n")?;
    Ok(())
}

impl Case {
    fn new(alloc: Global) -> Result<Case, Trouble> {
        Ok(Case {
            words: String::new(alloc),
            text: String::new(alloc),
            switch: String::new(alloc),
            plan: String::new(alloc),
            header: Vec::from_slice(alloc, &HEADER)?,
            records: Vec::new(alloc),
            trained: Vec::new(alloc),
            reports: Vec::new(alloc),
            wanted: String::new(alloc),
        })
    }

    /// Takes the bytes of a capture's header in place of those that stand.
    fn take_header(&mut self, front: &str, text: &str) -> Result<(), Trouble> {
        self.header.clear();
        push_hex(&mut self.header, front)?;
        push_hex(&mut self.header, text)
    }

    /// Takes a line of a case.
    fn take(&mut self, alloc: Global, line: &str) -> Result<(), Trouble> {
        if let Some(wanted) = line.strip_prefix("= ") {
            return push_line(&mut self.wanted, wanted);
        }
        match line.split_once(": ") {
            Some(("words", words)) => Ok(self.words.push_str(words)?),
            Some(("switch", text)) => push_line(&mut self.switch, text),
            Some(("plan", text)) => push_line(&mut self.plan, text),
            Some(("header", bytes)) => self.take_header("", bytes),
            Some(("link", bytes)) => {
                self.take_header("d4c3b2a1 0200 0400 00000000 00000000 00000400", bytes)
            }
            Some(("record", bytes)) => push_hex(&mut self.records, bytes),
            Some(("syn", packets)) => push_syns(&mut self.records, packets),
            Some(("six", packets)) => push_sixes(&mut self.records, packets),
            Some(("train", packets)) => push_syns(&mut self.trained, packets),
            Some(("frame", bytes)) => push_frame(alloc, &mut self.records, bytes),
            Some(("reports", bytes)) => push_hex(&mut self.reports, bytes),
            _ => push_line(&mut self.text, line),
        }
    }

    /// The case that these lines tell.
    pub fn read(alloc: Global, lines: &str) -> Result<Case, Trouble> {
        let mut case = Case::new(alloc)?;
        for line in lines.lines() {
            case.take(alloc, line)?;
        }
        Ok(case)
    }
}
