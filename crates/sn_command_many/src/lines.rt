//! What stands after the blocks of all windows.
ghost use Rattle.std.specs.Prelude.{◌≡◌, ◌++◌, IfOk, OnOk, Some, map};
ghost use Rattle.sn_command_captures.specs.Answered.{ending_of};
ghost use Rattle.sn_command_many.specs.Together.{damage_lines};
ghost use Rattle.sn_out.specs.Text.{total_line};

use sn_base::bytes::push_bytes;
use sn_base::memory::Memory;
use sn_base::seq::Seq;
use sn_command_captures::share::Share;
use sn_out::lines::{damage_of, total};
use std::alloc::Global;

/// Adds the line of each damaged capture. They are counted from 1.
fn push_damages(alloc: Global, text: &mut Vec<u8>, shares: &[Share]) -> Result<(), Memory>
    ensures { OnOk result (text.new.items ≡ text.old.items ++ damage_lines 1 (map ending_of shares.now)) }
{
    for (place, share) in shares.iter().enumerate() {
        let line = damage_of(alloc, place as u64 + 1, share.ending())?;
        push_bytes(text, line.as_slice())?;
    }
    Ok(())
}

/// The line of each damaged capture, and the total.
pub fn last_lines(
    alloc: Global,
    windows: u64,
    emitted: u64,
    shares: &[Share],
) -> Result<Seq<u8>, Memory>
    ensures { IfOk result (λ text. text ≡ damage_lines 1 (map ending_of shares.now) ++ total_line windows (Some emitted)) }
{
    let mut text = Vec::new(alloc);
    push_damages(alloc, &mut text, shares)?;
    let line = total(alloc, windows, Some(emitted))?;
    push_bytes(&mut text, line.as_slice())?;
    Ok(Seq::from_vec(text))
}
