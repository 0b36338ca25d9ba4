//! The stage of an answered capture: its records are read one after another, and the block of each window is written
//! when it closes. Nothing is kept of the capture but what the way of answering keeps.
ghost use Rattle.std.specs.Prelude.{◌≡◌, ◌<◌, ◌≤◌, ◌+◌, ◌^◌, ◌++◌, ℕ, List, [], ◌∷◌, None, true, is_some, IfOk, OnOk, length, take};
ghost use Rattle.std.specs.FinMap.{get};
ghost use Rattle.sn_command_capture.specs.Capture.{Head, WindowsOf, ending_verdict, LastLines, AfterHead, Answered};
ghost use Rattle.sn_command_capture.specs.Gathering.{Gathering, after, all_closed, closed_as, closing, refused, Stands, Stops, taken, unfinished_text};
ghost use Rattle.sn_command_capture.specs.Wording.{Closed, HoldsSome};
ghost use Rattle.sn_fields.specs.Tuples.{tuple};
ghost use Rattle.sn_command.specs.Desks.{world};
ghost use Rattle.sn_command.specs.Refusals.{refusing, seen_as};
ghost use Rattle.sn_command.specs.Runs.{Runs};
ghost use Rattle.sn_command.specs.Stages.{Does, Adds};
ghost use Rattle.sn_windows.specs.Rising.{AreRising, Window};

use crate::answering::Answering;
use crate::gathered::Gathered;
use sn_base::link::Link;
use sn_command::desk::Desk;
use sn_command::fault::Fault;
use sn_command::files::read_refusal;
use sn_command::refusal::Refusal;
use sn_command::texts::write_text;
use sn_fields::tuple::{Tuple, tuple_of};
use sn_io::inputs::{InputFault, Inputs, ReadError};
use sn_io::sink::Sink;
use sn_pcap::front::read_head;
use sn_pcap::header::Header;
use sn_pcap::packet::Ending;
use sn_pcap::reader::Reader;
use sn_pcap::seen::{Next, Seen};
use sn_windows::windows::Windows;
use std::alloc::Global;

/// Closes the current window, which is the last one, and writes its block, where it doesn't stop.
fn write_window<A: Answering, I: Inputs, O: Sink>(
    answering: &mut A,
    number: u64,
    desk: &mut Desk<'_, I, O>,
) -> Result<(), Refusal>
    requires { HoldsSome (A.hand answering.old) number }
    ensures runs { (closed : List Window) (tuples : List (List ℕ)) → 0 < length tuples → A.hand answering.old closed number tuples →
        Runs [] (Does (closed_as ((A.wording answering.old).stops (closed ++ (number, tuples) ∷ []) number tuples)
        ((A.wording answering.old).block (closed ++ (number, tuples) ∷ []) number tuples) tt)) (world I.Inputs O.Sink desk.old) result
        (world I.Inputs O.Sink desk.new) }
    ensures closed { OnOk result ((closed : List Window) (tuples : List (List ℕ)) → 0 < length tuples → A.hand answering.old closed number tuples →
        A.idle answering.new (closed ++ (number, tuples) ∷ [])) }
    ensures wording { OnOk result (A.wording answering.new ≡ A.wording answering.old) }
{
    let text = answering.close(number)?;
    write_text(text.as_slice(), desk)
}

/// Takes the first tuple of a later window: closes the current window, and writes its block, where it doesn't stop.
fn next_window<A: Answering, I: Inputs, O: Sink>(
    answering: &mut A,
    at_hand: u64,
    number: u64,
    tuple: &Tuple,
    desk: &mut Desk<'_, I, O>,
) -> Result<(), Refusal>
    requires hand { HoldsSome (A.hand answering.old) at_hand }
    requires above { at_hand < number }
    ensures runs { (closed : List Window) (tuples : List (List ℕ)) → 0 < length tuples → A.hand answering.old closed at_hand tuples →
        Runs [] (Does (closed_as ((A.wording answering.old).stops (closed ++ (at_hand, tuples) ∷ []) at_hand tuples)
        ((A.wording answering.old).block (closed ++ (at_hand, tuples) ∷ []) at_hand tuples) tt)) (world I.Inputs O.Sink desk.old) result
        (world I.Inputs O.Sink desk.new) }
    ensures begun { OnOk result ((closed : List Window) (tuples : List (List ℕ)) → 0 < length tuples → A.hand answering.old closed at_hand tuples →
        AreRising None ((closed ++ (at_hand, tuples) ∷ []) ++ (number, []) ∷ []) →
        A.hand answering.new (closed ++ (at_hand, tuples) ∷ []) number (tuple.now ∷ [])) }
    ensures wording { OnOk result (A.wording answering.new ≡ A.wording answering.old) }
{
    let text = answering.pass(at_hand, number, tuple)?;
    write_text(text.as_slice(), desk)
}

/// Writes what stands of the current window, if there is one, where the capture is refused there.
fn write_unfinished<A: Answering, I: Inputs, O: Sink>(
    answering: &A,
    gathered: Gathered,
    desk: &mut Desk<'_, I, O>,
) -> Result<(), Refusal>
    requires { (g : Gathering) × Stands (A.hand answering.now) gathered g }
    ensures { (g : Gathering) → Stands (A.hand answering.now) gathered g →
        Runs [] (Adds (unfinished_text (A.wording answering.now) g)) (world I.Inputs O.Sink desk.old) result (world I.Inputs O.Sink desk.new) }
{
    if !gathered.some {
        return Ok(());
    }
    let text = answering.unfinished(gathered.windows.number())?;
    write_text(text.as_slice(), desk)
}

/// Refuses a capture that is too large, after what stands of the current window.
fn refuse_large<A: Answering, I: Inputs, O: Sink>(
    answering: &A,
    gathered: Gathered,
    desk: &mut Desk<'_, I, O>,
) -> Refusal
    requires { (g : Gathering) × Stands (A.hand answering.now) gathered g }
    ensures { (g : Gathering) → Stands (A.hand answering.now) gathered g →
        Runs [] (Does (refused {A = Gathering} (A.wording answering.now) g)) (world I.Inputs O.Sink desk.old) (Err result) (world I.Inputs O.Sink desk.new) }
{
    match write_unfinished(answering, gathered, desk) {
        Ok(()) => Refusal::Refused(Fault::TooLarge),
        Err(refusal) => refusal,
    }
}

/// Takes a packet: it is of the current window, or that one is closed and it begins the next.
fn take_packet<A: Answering, I: Inputs, O: Sink>(
    answering: &mut A,
    link: Link,
    gathered: Gathered,
    seen: &Seen,
    desk: &mut Desk<'_, I, O>,
) -> Result<Gathered, Refusal>
    requires len { seen.now.len ≤ 128 }
    requires room { gathered.closed < 2 ^ 63 }
    requires stands { (g : Gathering) × Stands (A.hand answering.old) gathered g }
    ensures runs { (g : Gathering) → Stands (A.hand answering.old) gathered g → let shown = tuple link seen.now.wire (take seen.now.len seen.now.front) in
        Runs [] (Does (taken (A.wording answering.old) g seen.now.time shown)) (world I.Inputs O.Sink desk.old)
        (seen_as (λ _. after g seen.now.time shown) result) (world I.Inputs O.Sink desk.new) }
    ensures stands { IfOk result (λ later. (g : Gathering) → Stands (A.hand answering.old) gathered g →
        Stands (A.hand answering.new) later (after g seen.now.time (tuple link seen.now.wire (take seen.now.len seen.now.front)))) }
    ensures closed { IfOk result (λ later. later.closed ≤ gathered.closed + 1) }
    ensures wording { OnOk result (A.wording answering.new ≡ A.wording answering.old) }
{
    let mut windows = gathered.windows;
    let closed = gathered.closed;
    let at_hand = windows.number();
    let number = match windows.next_number(seen.time) {
        Ok(number) => number,
        Err(_) => return Err(refuse_large(answering, gathered, desk)),
    };
    let tuple = tuple_of(link, seen.wire, seen.bytes());
    if number == at_hand {
        answering.packet(number, &tuple)?;
        return Ok(Gathered {
            windows,
            closed,
            some: true,
        });
    }
    next_window(answering, at_hand, number, &tuple, desk)?;
    Ok(Gathered {
        windows,
        closed: closed + 1,
        some: true,
    })
}

/// Closes the current window, if there is one, where the records end. Says how many windows there were.
fn close_last<A: Answering, I: Inputs, O: Sink>(
    answering: &mut A,
    gathered: Gathered,
    ending: Ending,
    desk: &mut Desk<'_, I, O>,
) -> Result<(u64, Ending), Refusal>
    requires room { gathered.closed < 2 ^ 63 }
    requires stands { (g : Gathering) × Stands (A.hand answering.old) gathered g }
    ensures runs { (g : Gathering) → Stands (A.hand answering.old) gathered g →
        Runs [] (Does (closing (A.wording answering.old) g ending)) (world I.Inputs O.Sink desk.old) (seen_as (λ _. (all_closed g, ending)) result)
        (world I.Inputs O.Sink desk.new) }
    ensures closed { IfOk result (λ found. (g : Gathering) → Stands (A.hand answering.old) gathered g →
        (found.0 ≡ length (all_closed g)) × (found.1 ≡ ending) × Closed (A.idle answering.new) (A.hand answering.new) (all_closed g)) }
    ensures wording { OnOk result (A.wording answering.new ≡ A.wording answering.old) }
{
    if !gathered.some {
        return Ok((gathered.closed, ending));
    }
    write_window(answering, gathered.windows.number(), desk)?;
    Ok((gathered.closed + 1, ending))
}

/// Refuses a capture that can't be read on. Where it has too many bytes, what stands of the current window is written before.
fn refuse_capture<A: Answering, I: Inputs, O: Sink>(
    answering: &A,
    gathered: Gathered,
    error: ReadError,
    desk: &mut Desk<'_, I, O>,
) -> Refusal
    requires { (g : Gathering) × Stands (A.hand answering.now) gathered g }
    ensures { Stops (A.hand answering.now) (A.wording answering.now) gathered error (world I.Inputs O.Sink desk.old) result (world I.Inputs O.Sink desk.new) }
{
    match error {
        ReadError::TooLarge => refuse_large(answering, gathered, desk),
        _ => read_refusal(error),
    }
}

/// Reads the records of a capture and writes the block of each window when it closes. Says how many windows there
/// are, and how the records end.
fn write_windows<A: Answering, I: Inputs, O: Sink>(
    alloc: Global,
    window_ns: u64,
    header: &Header,
    capture: &str,
    answering: &mut A,
    desk: &mut Desk<'_, I, O>,
) -> Result<(u64, Ending), Refusal>
    requires known { is_some (get (world I.Inputs O.Sink desk.old).files.faults capture.now) ≡ true }
    requires window { 1 ≤ window_ns }
    requires begun { A.hand answering.old [] 0 [] }
    ensures runs { (windows : List Window) × Runs (capture.now ∷ []) (WindowsOf (A.wording answering.old) window_ns capture.now header.now)
        (world I.Inputs O.Sink desk.old) (seen_as (λ found. (windows, found.1)) result) (world I.Inputs O.Sink desk.new)
        × IfOk result (λ found. (found.0 ≡ length windows) × Closed (A.idle answering.new) (A.hand answering.new) windows) }
    ensures wording { OnOk result (A.wording answering.new ≡ A.wording answering.old) }
{
    let mut reader = Reader::make(alloc, *header)?;
    let mut gathered = Gathered {
        windows: Windows::new(window_ns),
        closed: 0,
        some: false,
    };
    let mut seen = Seen::empty();
    'records: loop {
        match reader.next(desk.files, capture, &mut seen) {
            Ok(Next::Packet) => {
                gathered = take_packet(answering, header.link, gathered, &seen, desk)?;
            }
            Ok(Next::End(ending)) => return close_last(answering, gathered, ending, desk),
            Err(error) => return Err(refuse_capture(answering, gathered, error, desk)),
        }
    }
}

/// How a command ends after the whole records of a capture.
fn end_of(ending: Ending) -> Result<(), Refusal>
    ensures { result ≡ refusing (ending_verdict ending) }
{
    match ending {
        Ending::Clean => Ok(()),
        Ending::Cut(at) => Err(Refusal::Refused(Fault::Cut(at))),
        Ending::Bad(at) => Err(Refusal::Refused(Fault::Bad(at))),
    }
}

/// Writes what stands before the blocks.
fn write_first_lines<A: Answering, I: Inputs, O: Sink>(
    answering: &A,
    desk: &mut Desk<'_, I, O>,
) -> Result<(), Refusal>
    ensures { Runs [] (Adds (A.wording answering.now).first) (world I.Inputs O.Sink desk.old) result (world I.Inputs O.Sink desk.new) }
{
    let lines = answering.first()?;
    write_text(lines.as_slice(), desk)
}

/// Writes what stands after the blocks.
fn write_last_lines<A: Answering, I: Inputs, O: Sink>(
    answering: &A,
    windows: u64,
    ending: Ending,
    desk: &mut Desk<'_, I, O>,
) -> Result<(), Refusal>
    ensures { (closed : List Window) → Closed (A.idle answering.now) (A.hand answering.now) closed → windows ≡ length closed →
        Runs [] (LastLines (A.wording answering.now) closed ending) (world I.Inputs O.Sink desk.old) result (world I.Inputs O.Sink desk.new) }
{
    let lines = answering.last(windows, ending)?;
    write_text(lines.as_slice(), desk)?;
    end_of(ending)
}

/// Reads the header of a capture.
fn read_header<I: Inputs, O: Sink>(
    capture: &str,
    desk: &mut Desk<'_, I, O>,
) -> Result<Header, Refusal>
    ensures runs { Runs (capture.now ∷ []) (Head capture.now) (world I.Inputs O.Sink desk.old) result (world I.Inputs O.Sink desk.new) }
    ensures known { IfOk result (λ _. is_some (get (world I.Inputs O.Sink desk.new).files.faults capture.now) ≡ true) }
{
    match read_head(desk.files, capture) {
        Ok(Ok(header)) => Ok(header),
        Ok(Err(fault)) => Err(Refusal::Refused(Fault::Head(fault))),
        Err(InputFault::Missing) => Err(Refusal::Missing),
        Err(InputFault::Failed) => Err(Refusal::ReadFault),
    }
}

/// Answers the records of a capture, after what stands before all blocks.
fn answer_records<A: Answering, I: Inputs, O: Sink>(
    alloc: Global,
    window_ns: u64,
    header: &Header,
    capture: &str,
    answering: &mut A,
    desk: &mut Desk<'_, I, O>,
) -> Result<(), Refusal>
    requires known { is_some (get (world I.Inputs O.Sink desk.old).files.faults capture.now) ≡ true }
    requires window { 1 ≤ window_ns }
    requires begun { A.hand answering.old [] 0 [] }
    ensures { Runs (capture.now ∷ []) (AfterHead (A.wording answering.old) window_ns capture.now header.now) (world I.Inputs O.Sink desk.old) result
        (world I.Inputs O.Sink desk.new) }
{
    write_first_lines(answering, desk)?;
    let (windows, ending) = write_windows(alloc, window_ns, header, capture, answering, desk)?;
    write_last_lines(answering, windows, ending, desk)
}

/// Answers a capture in windows of this many nanoseconds, of which none was closed, and none was given a tuple.
pub fn answer_capture<A: Answering, I: Inputs, O: Sink>(
    alloc: Global,
    window_ns: u64,
    capture: &str,
    answering: &mut A,
    desk: &mut Desk<'_, I, O>,
) -> Result<(), Refusal>
    requires window { 1 ≤ window_ns }
    requires begun { A.hand answering.old [] 0 [] }
    ensures { Runs (capture.now ∷ []) (Answered (A.wording answering.old) window_ns capture.now) (world I.Inputs O.Sink desk.old) result
        (world I.Inputs O.Sink desk.new) }
{
    let header = read_header(capture, desk)?;
    answer_records(alloc, window_ns, &header, capture, answering, desk)
}
