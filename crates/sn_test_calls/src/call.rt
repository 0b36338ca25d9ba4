//! A call of the top call, and what is wanted of it.
//!
//! In the file a call is a line `call KIND-NUMBER`, then its parts, the last of which is `err`:
//!
//! ```text
//! word LENGTH               a word of the command line
//! file NAMELENGTH LENGTH    a file that a word names: its name, then its bytes
//! made NAMELENGTH PACKETS   a capture of so many packets that a word names: its name
//! status S
//! out LENGTH                what standard output is to get
//! err LENGTH                what standard error is to get
//! ```
//!
//! A line feed ends each line and each text. A word that names no file of the call is a name that isn't known.
use crate::cursor::Cursor;
use crate::made::capture;
use crate::trouble::Trouble;
use sn_base::seq::Seq;
use sn_core_net::net::Net;
use sn_io::mem_inputs::MemInputs;
use sn_io::mem_sink::MemSink;
use sn_top::top::top;
use std::alloc::Global;
use std::str;

/// How many parts a call has at the most.
const MOST_PARTS: usize = 64;

/// How many bytes a sink takes above those that are wanted of it, so that a longer text shows where it goes on.
const SPARE: u64 = 4096;

/// A part of a call.
#[derive(Drop)]
enum Part {
    Word(String),
    File(String, Vec<u8>),
    Status(u8),
    Out(Vec<u8>),
    Err(Vec<u8>),
}

/// A call, and what is wanted of it.
#[derive(Drop)]
pub struct Call {
    name: String,
    words: Vec<String>,
    files: MemInputs,
    status: u8,
    out: Vec<u8>,
    err: Vec<u8>,
}

/// What a call answered.
#[derive(Drop)]
struct Answer {
    status: u8,
    out: MemSink,
    err: MemSink,
}

/// The number that a word writes.
fn number(word: &str) -> Result<usize, Trouble> {
    word.parse::<usize>().map_err(|_| Trouble::Form)
}

/// Reads the file of these two lengths.
fn read_file(alloc: Global, cursor: &mut Cursor, lengths: &str) -> Result<Part, Trouble> {
    let Some((name, bytes)) = lengths.split_once(' ') else {
        return Err(Trouble::Form);
    };
    let name = String::from_str(alloc, cursor.text(number(name)?)?)?;
    let bytes = Vec::from_slice(alloc, cursor.piece(number(bytes)?)?)?;
    Ok(Part::File(name, bytes))
}

/// Makes the capture of this name's length and this number of packets.
fn make_file(alloc: Global, cursor: &mut Cursor, numbers: &str) -> Result<Part, Trouble> {
    let Some((name, packets)) = numbers.split_once(' ') else {
        return Err(Trouble::Form);
    };
    let Ok(packets) = packets.parse::<u32>() else {
        return Err(Trouble::Form);
    };
    let name = String::from_str(alloc, cursor.text(number(name)?)?)?;
    Ok(Part::File(name, capture(alloc, packets)?))
}

/// Reads a part of a call.
fn read_part(alloc: Global, cursor: &mut Cursor) -> Result<Part, Trouble> {
    match cursor.line()?.split_once(' ') {
        Some(("word", length)) => {
            let text = cursor.text(number(length)?)?;
            Ok(Part::Word(String::from_str(alloc, text)?))
        }
        Some(("file", lengths)) => read_file(alloc, cursor, lengths),
        Some(("made", numbers)) => make_file(alloc, cursor, numbers),
        Some(("status", status)) => match status.parse::<u8>() {
            Ok(status) => Ok(Part::Status(status)),
            Err(_) => Err(Trouble::Form),
        },
        Some(("out", length)) => {
            let bytes = cursor.piece(number(length)?)?;
            Ok(Part::Out(Vec::from_slice(alloc, bytes)?))
        }
        Some(("err", length)) => {
            let bytes = cursor.piece(number(length)?)?;
            Ok(Part::Err(Vec::from_slice(alloc, bytes)?))
        }
        _ => Err(Trouble::Form),
    }
}

/// A stream, where it is text.
fn text_of(bytes: &[u8]) -> &str {
    str::from_utf8(bytes).unwrap_or("")
}

/// The line at a place of a stream, where it is text and has that many.
fn line_at(bytes: &[u8], place: usize) -> &str {
    text_of(bytes).lines().nth(place).unwrap_or("")
}

/// Tells the first line in which two streams differ.
fn first_other_line(
    alloc: Global,
    stream: &str,
    wanted: &[u8],
    got: &[u8],
) -> Result<String, Trouble> {
    let mut lines = text_of(wanted).lines().zip(text_of(got).lines());
    Ok(match lines.position(|(wanted, got)| wanted != got) {
        Some(place) => {
            let (wanted, got) = (line_at(wanted, place), line_at(got, place));
            format!(in alloc; "{stream} {place}: {got} for {wanted}")?
        }
        None => format!(in alloc; "{stream}: {} bytes for {}", got.len(), wanted.len())?,
    })
}

impl Call {
    fn new(alloc: Global, name: &str) -> Result<Call, Trouble> {
        Ok(Call {
            name: String::from_str(alloc, name)?,
            words: Vec::new(alloc),
            files: MemInputs::new(alloc),
            status: 0,
            out: Vec::new(alloc),
            err: Vec::new(alloc),
        })
    }

    /// Takes a part. Whether it is the last.
    fn take(&mut self, part: Part) -> Result<bool, Trouble> {
        match part {
            Part::Word(word) => self.words.push(word)?,
            Part::File(name, bytes) => self.files.put(name.as_str(), Seq::from_vec(bytes))?,
            Part::Status(status) => self.status = status,
            Part::Out(bytes) => self.out = bytes,
            Part::Err(bytes) => {
                self.err = bytes;
                return Ok(true);
            }
        }
        Ok(false)
    }

    /// Reads the next call of a list.
    pub fn read(alloc: Global, cursor: &mut Cursor) -> Result<Call, Trouble> {
        let Some(name) = cursor.line()?.strip_prefix("call ") else {
            return Err(Trouble::Form);
        };
        let mut call = Call::new(alloc, name)?;
        for _ in 0..MOST_PARTS {
            if call.take(read_part(alloc, cursor)?)? {
                return Ok(call);
            }
        }
        Err(Trouble::Form)
    }

    /// The call's name.
    pub fn name(&self) -> &str {
        self.name.as_str()
    }

    /// The kind of the call: its name up to the first `-`.
    pub fn kind(&self) -> &str {
        match self.name.as_str().split_once('-') {
            Some((kind, _)) => kind,
            None => self.name.as_str(),
        }
    }

    /// Makes the call.
    fn answer(&mut self, alloc: Global) -> Result<Answer, Trouble> {
        let mut out = MemSink::new(alloc, self.out.len() as u64 + SPARE)?;
        let mut err = MemSink::new(alloc, self.err.len() as u64 + SPARE)?;
        let status = top::<Net, MemInputs, MemSink, MemSink>(
            alloc,
            &self.words,
            &mut self.files,
            &mut out,
            &mut err,
        );
        Ok(Answer { status, out, err })
    }

    /// Makes the call, and tells what of its answer isn't as wanted: the text, the line on the status, or the status.
    pub fn difference(&mut self, alloc: Global) -> Result<Option<String>, Trouble> {
        let answer = self.answer(alloc)?;
        if answer.out.bytes() != self.out.as_slice() {
            let text = first_other_line(
                alloc,
                "text, line",
                self.out.as_slice(),
                answer.out.bytes(),
            )?;
            return Ok(Some(text));
        }
        if answer.err.bytes() != self.err.as_slice() {
            let text = first_other_line(
                alloc,
                "status line",
                self.err.as_slice(),
                answer.err.bytes(),
            )?;
            return Ok(Some(text));
        }
        if answer.status != self.status {
            let text = format!(in alloc; "status {} for {}", answer.status, self.status)?;
            return Ok(Some(text));
        }
        Ok(None)
    }
}
