//! The lines after the blocks of printed answers.
ghost use Rattle.std.specs.Prelude.{◌≡◌, ◌++◌, IfOk};
ghost use Rattle.sn_out.specs.Text.{damage_line, total_line};

use sn_base::bytes::push_bytes;
use sn_base::memory::Memory;
use sn_base::seq::Seq;
use sn_out::lines::{damage, total};
use sn_pcap::packet::Ending;
use std::alloc::Global;

/// The line of a capture's damage, if there is some, and the total: how many windows there were, and how many items were
/// sent, where they are counted.
pub fn last_lines(
    alloc: Global,
    ending: Ending,
    windows: u64,
    emitted: Option<u64>,
) -> Result<Seq<u8>, Memory>
    ensures { IfOk result (λ text. text ≡ damage_line ending ++ total_line windows emitted) }
{
    let mut text = damage(alloc, ending)?.into_vec();
    let line = total(alloc, windows, emitted)?;
    push_bytes(&mut text, line.as_slice())?;
    Ok(Seq::from_vec(text))
}
