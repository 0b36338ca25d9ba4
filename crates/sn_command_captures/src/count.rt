//! Captures are counted: the windows of their records begin at one time, and none has too many.
ghost use Rattle.std.specs.Prelude.{◌≡◌, ◌≤◌, IfOk};
ghost use Rattle.std.specs.List.{AllByRecursion};
ghost use Rattle.sn_command.specs.Runs.{Answers};
ghost use Rattle.sn_command_captures.specs.Counted.{counted, share_verdict, start_found};
ghost use Rattle.sn_command_captures.specs.Shares.{IsSound};
ghost use Rattle.sn_command_captures.specs.Windows.{start_of};

use crate::capture::Capture;
use crate::share::Share;
use sn_base::seq::Seq;
use sn_command::fault::Fault;
use sn_command::refusal::Refusal;
use std::alloc::Global;

/// When window 0 begins, in nanoseconds: at the least of the captures' first times, or 0 where no capture has a record.
fn start(captures: &[Capture]) -> u64
    ensures { result ≡ start_of captures.now }
{
    let mut least = None;
    for capture in captures {
        if let Some(time) = capture.first_time() {
            least = Some(earlier(least, time));
        }
    }
    least.unwrap_or(0)
}

/// The earlier of two times, of which one may be missing.
fn earlier(least: Option<u64>, time: u64) -> u64
    ensures { result ≡ start_found least time }
{
    match least {
        Some(least) => least.min(time),
        None => time,
    }
}

/// What a switch saw that recorded this capture.
fn share(window_ns: u64, start: u64, capture: Capture) -> Result<Share, Refusal>
    requires { 1 ≤ window_ns }
    ensures { Answers (λ verdict. verdict ≡ share_verdict window_ns start capture) result }
{
    match capture.into_share(window_ns, start) {
        Some(share) => Ok(share),
        None => Err(Refusal::Refused(Fault::TooLarge)),
    }
}

/// What the switches saw that recorded these captures, in windows of this many nanoseconds. Refused where a window of one capture has
/// more than 4194304 records.
pub fn count(alloc: Global, window_ns: u64, captures: Seq<Capture>) -> Result<Seq<Share>, Refusal>
    requires { 1 ≤ window_ns }
    ensures counted { Answers (λ verdict. verdict ≡ counted window_ns captures) result }
    ensures sound { IfOk result (AllByRecursion IsSound) }
{
    let start = start(captures.as_slice());
    let mut shares = Seq::new(alloc);
    for capture in captures.into_vec() {
        shares.push(share(window_ns, start, capture)?)?;
    }
    Ok(shares)
}
