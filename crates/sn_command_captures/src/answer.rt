//! Captures that were counted are answered, window by window.
ghost use Rattle.std.specs.Prelude.{◌≡◌, ◌+◌, [], Err, IfOk, IsErr, map};
ghost use Rattle.std.specs.List.{AllByRecursion};
ghost use Rattle.sn_command.specs.Desks.{world};
ghost use Rattle.sn_command.specs.Refusals.{refusing};
ghost use Rattle.sn_command.specs.Runs.{Runs};
ghost use Rattle.sn_command_captures.specs.Answered.{Answered, damage_from, ending_of, windows_in};
ghost use Rattle.sn_command_captures.specs.Shares.{IsSound};
ghost use Rattle.sn_command.specs.declared.refusal.Refusal.TheVariants.{Memory};

use crate::share::{Share, next_window};
use crate::team::Team;
use sn_command::desk::Desk;
use sn_command::fault::Fault;
use sn_command::refusal::Refusal;
use sn_command::texts::write_text;
use sn_io::inputs::Inputs;
use sn_io::sink::Sink;
use sn_pcap::packet::Ending;

/// One more. Of more than 64 bits memory runs out.
fn one_more(windows: u64) -> Result<u64, Refusal>
    ensures more { IfOk result (λ more. more ≡ windows + 1) }
    ensures memory { IsErr result → result ≡ Err Memory }
{
    match windows.checked_add(1) {
        Some(more) => Ok(more),
        None => Err(Refusal::Memory),
    }
}

/// The damage of the first damaged capture. They are counted from 1.
fn damage(shares: &[Share]) -> Result<(), Refusal>
    ensures { result ≡ refusing (damage_from 1 (map ending_of shares.now)) }
{
    for (place, share) in shares.iter().enumerate() {
        let file = place as u64 + 1;
        match share.ending() {
            Ending::Clean => {}
            Ending::Cut(at) => return Err(Refusal::Refused(Fault::CutOf { at, file })),
            Ending::Bad(at) => return Err(Refusal::Refused(Fault::BadOf { at, file })),
        }
    }
    Ok(())
}

/// Answers the windows that captures have together, one after another, and writes the block of each.
pub fn answer_shares<T: Team, I: Inputs, O: Sink>(
    team: &mut T,
    shares: &mut [Share],
    desk: &mut Desk<'_, I, O>,
) -> Result<(), Refusal>
    requires sound { AllByRecursion IsSound shares.old }
    requires begun { T.answered team.old (windows_in shares.old) [] }
    ensures { Runs [] (Answered (T.wording team.old) shares.old) (world I.Inputs O.Sink desk.old) result (world I.Inputs O.Sink desk.new) }
{
    let mut windows = 0;
    'windows: while let Some(number) = next_window(shares) {
        let block = team.window(number, shares)?;
        write_text(block.as_slice(), desk)?;
        windows = one_more(windows)?;
    }
    let lines = team.last(windows, shares)?;
    write_text(lines.as_slice(), desk)?;
    damage(shares)
}
