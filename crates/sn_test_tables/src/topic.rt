//! The cases of a topic, run one after another.
use crate::table::{Form, difference};
use sn_test_inputs::packets::push_hex;
use std::alloc::Global;
use std::str;
use std::test::Fail;

/// A topic whose cases are run: how far it has come.
#[derive(Drop)]
pub struct Topic<'a> {
    name: &'a str,
    form: Option<Form>,
    line: u64,
    cases: u64,
    differing: u64,
}

/// Adds what stands after a backslash: two hexadecimal digits, which tell a byte, and text.
fn push_escaped(into: &mut Vec<u8>, piece: &str) -> Result<(), Fail> {
    let [high, low, rest @ ..] = piece.as_bytes() else {
        return Err(Fail::new("two hexadecimal digits stand after each backslash"));
    };
    push_hex(into, str::from_utf8(&[*high, *low])?)?;
    into.extend_from_slice(rest)?;
    Ok(())
}

/// The text in which a backslash and two hexadecimal digits stand for a byte.
fn unescaped(alloc: Global, text: &str) -> Result<String, Fail> {
    let mut pieces = text.split('\\');
    let front = pieces.next().unwrap_or("");
    let mut bytes = Vec::from_slice(alloc, front.as_bytes())?;
    for piece in pieces {
        push_escaped(&mut bytes, piece)?;
    }
    Ok(String::from_utf8(bytes)?)
}

impl<'a> Topic<'a> {
    /// Before the first line of the topic's file.
    pub fn new(name: &'a str) -> Topic<'a> {
        Topic {
            name,
            form: None,
            line: 1,
            cases: 0,
            differing: 0,
        }
    }

    /// How many cases were run.
    pub fn cases(&self) -> u64 {
        self.cases
    }

    /// How many of them answered otherwise than is wanted.
    pub fn differing(&self) -> u64 {
        self.differing
    }

    /// Takes the head of a table, whose first word is its form.
    fn take_head(&mut self, head: &str) -> Result<(), Fail> {
        let name = head.lines().next().unwrap_or("");
        self.form = Form::named(name);
        match self.form {
            Some(_) => Ok(()),
            None => Err(Fail::new(format_args!("{}: no form {name}", self.name))),
        }
    }

    /// Runs a case, which begins on this line, and tells it where it answers otherwise.
    fn run(&mut self, rt: &HostRuntime, form: Form, case: &str, line: u64) -> Result<(), Fail> {
        let alloc = rt.alloc();
        self.cases = self.cases.saturating_add(1);
        let lines = unescaped(alloc, case)?;
        if let Some(difference) = difference(alloc, form, lines.as_str())? {
            self.differing = self.differing.saturating_add(1);
            println!(rt;
                "{}, case {} on line {line}: {}",
                self.name,
                self.cases,
                difference.as_str()
            )?;
        }
        Ok(())
    }

    /// Takes a paragraph: words on the topic, the head of a table, or a case of the table, which is run.
    pub fn take(&mut self, rt: &HostRuntime, paragraph: &str) -> Result<(), Fail> {
        let line = self.line;
        let lines = paragraph.lines().count() as u64;
        self.line = line.saturating_add(lines).saturating_add(1);
        if let Some(head) = paragraph.strip_prefix("table ") {
            return self.take_head(head);
        }
        match self.form {
            Some(form) => self.run(rt, form, paragraph, line),
            None => Ok(()),
        }
    }
}
