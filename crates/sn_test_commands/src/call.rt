//! Calls of commands, over files that a test gives.
use sn_base::seq::Seq;
use sn_core_net::net::Net;
use sn_io::inputs::Inputs;
use sn_io::mem_inputs::MemInputs;
use sn_io::mem_sink::MemSink;
use sn_io::sink::Sink;
use sn_test_inputs::trouble::Trouble;
use sn_top::top::top;
use std::alloc::Global;
use std::process::Abort;

/// How a command ended: its status, and what it wrote as its output and as its line.
#[derive(Drop)]
pub struct Ran {
    pub status: u8,
    pub out: MemSink,
    pub err: MemSink,
}

/// Bytes as a file.
pub fn file_of(alloc: Global, bytes: &[u8]) -> Result<Seq<u8>, Trouble> {
    Ok(Seq::from_vec(Vec::from_slice(alloc, bytes)?))
}

/// Puts bytes as a file, with ample memory.
pub fn put(rt: &impl Abort, alloc: Global, files: &mut MemInputs, name: &str, bytes: &[u8]) {
    let file = file_of(alloc, bytes).expect(rt, "ample memory");
    assert!(rt; files.put(name, file).is_ok());
}

/// The words of a line, which blanks stand between. The error is out of memory.
fn words_in(alloc: Global, line: &str) -> Result<Vec<String>, Trouble> {
    let mut words = Vec::new(alloc);
    for word in line.split_whitespace() {
        words.push(String::from_str(alloc, word)?)?;
    }
    Ok(words)
}

/// Runs the words of this line, which blanks stand between, over these files, with these outputs. The status.
pub fn call_to<I: Inputs, O: Sink, E: Sink>(
    alloc: Global,
    line: &str,
    files: &mut I,
    out: &mut O,
    err: &mut E,
) -> Result<u8, Trouble> {
    let words = words_in(alloc, line)?;
    Ok(top::<Net, I, O, E>(alloc, &words, files, out, err))
}

/// Runs the words of this line, which blanks stand between, over these files, with this output.
pub fn call<I: Inputs>(
    alloc: Global,
    line: &str,
    files: &mut I,
    out: MemSink,
) -> Result<Ran, Trouble> {
    let mut out = out;
    let mut err = MemSink::new(alloc, 1000)?;
    let status = call_to(alloc, line, files, &mut out, &mut err)?;
    Ok(Ran { status, out, err })
}
