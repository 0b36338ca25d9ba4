//! Captures are read whole, one after another.
ghost use Rattle.std.specs.Prelude.{◌≡◌, ◌≤◌, ◌-◌, ◌+◌, List, [], ◌∷◌, IfOk, length};
ghost use Rattle.sn_cli.specs.Words.{texts};
ghost use Rattle.sn_command.specs.Desks.{world};
ghost use Rattle.sn_command.specs.Runs.{Answers, Runs, Works};
ghost use Rattle.sn_command.specs.Stages.{most_text};
ghost use Rattle.sn_command_captures.specs.Captures.{Captures, CapturesAfter, CaptureIn, NextCapture, bytes_in};

use crate::capture::Capture;
use sn_base::seq::Seq;
use sn_command::desk::Desk;
use sn_command::fault::Fault;
use sn_command::files::{MOST_TEXT, read_file};
use sn_command::refusal::Refusal;
use sn_io::inputs::Inputs;
use sn_io::sink::Sink;
use sn_pcap::header::head;
use std::alloc::Global;

/// What a file is, as the capture of this number.
fn judge_capture(number: u64, file: Seq<u8>) -> Result<Capture, Refusal>
    ensures judged { Answers (CaptureIn number file) result }
    ensures file { IfOk result (λ capture. capture.file ≡ file) }
{
    let header = match head(file.as_slice()) {
        Ok(header) => header,
        Err(fault) => {
            return Err(Refusal::Refused(Fault::HeadOf {
                fault,
                file: number,
            }));
        }
    };
    Ok(Capture::of(header, file))
}

/// Reads the capture of this number whole, which may have this many bytes.
fn read_capture<I: Inputs, O: Sink>(
    alloc: Global,
    desk: &mut Desk<'_, I, O>,
    number: u64,
    most: u64,
    name: &str,
) -> Result<Capture, Refusal>
    ensures works { Works (name.now ∷ []) (NextCapture number most name.now) (world I.Inputs O.Sink desk.old) result (world I.Inputs O.Sink desk.new) }
    ensures within { IfOk result (λ capture. length capture.file ≤ most) }
{
    let file = read_file(alloc, desk, name, most)?;
    judge_capture(number, file)
}

/// Reads captures after others, all of which may have this many bytes together.
fn read_after<I: Inputs, O: Sink>(
    alloc: Global,
    desk: &mut Desk<'_, I, O>,
    names: &[String],
    most: u64,
    before: Seq<Capture>,
) -> Result<Seq<Capture>, Refusal>
    requires { most ≡ most_text - bytes_in before }
    ensures runs { Runs (texts names.now) (CapturesAfter before (texts names.now)) (world I.Inputs O.Sink desk.old) result (world I.Inputs O.Sink desk.new) }
    ensures count { IfOk result (λ captures. length captures ≡ length before + length names.now) }
{
    let Some((name, rest)) = names.split_first() else {
        return Ok(before);
    };
    let mut captures = before;
    let number = captures.as_slice().len() as u64 + 1;
    let capture = read_capture(alloc, desk, number, most, name.as_str())?;
    let left = most - capture.len() as u64;
    captures.push(capture)?;
    read_after(alloc, desk, rest, left, captures)
}

/// Reads captures whole, in the order of their names. All of them have at most 2^30 bytes together. The whole records of each
/// count, however they end.
pub fn read_captures<I: Inputs, O: Sink>(
    alloc: Global,
    desk: &mut Desk<'_, I, O>,
    names: &[String],
) -> Result<Seq<Capture>, Refusal>
    ensures runs { Runs (texts names.now) (Captures (texts names.now)) (world I.Inputs O.Sink desk.old) result (world I.Inputs O.Sink desk.new) }
    ensures count { IfOk result (λ captures. length captures ≡ length names.now) }
{
    read_after(alloc, desk, names, MOST_TEXT, Seq::new(alloc))
}
