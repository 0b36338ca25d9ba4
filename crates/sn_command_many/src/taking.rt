//! The tuples of a window go to the switches.
ghost use Rattle.std.specs.Prelude.{◌≡◌, ◌+◌, ◌<◌, ◌≤◌, OnOk, false, length, map};
ghost use Rattle.std.specs.List.{AllByRecursion};
ghost use Rattle.sn_command_captures.specs.Answered.{ending_of};
ghost use Rattle.sn_command_captures.specs.Counted.{left_of};
ghost use Rattle.sn_command_captures.specs.Shares.{IsSound};
ghost use Rattle.sn_command_many.specs.Giving.{HasTaken, given_all, given_each};
ghost use Rattle.sn_engine_many.specs.Phases.{is_between};
ghost use Rattle.sn_multi.specs.Branches.{together};
ghost use Rattle.sn_types.specs.Typed.{HasWidths};
ghost use Rattle.sn_windows.proofs.RunLemmas.{AtLeast};
ghost use Rattle.sn_windows.specs.Windows.{in_window};
ghost use Rattle.sn_windows_together.specs.Merging.{after_window};

use sn_base::memory::Memory;
use sn_command_captures::share::Share;
use sn_engine_many::many::Many;

/// Gives the switch of this number the tuples that it saw in a window, which is the first that is left. All of them are taken.
fn take_share(many: &mut Many, switch: u32, share: &mut Share, number: u64) -> Result<(), Memory>
    requires begun { is_between many.old.phase ≡ false }
    requires switch { switch < length many.old.switches.items }
    requires sound { IsSound share.old }
    requires least { AtLeast number (left_of share.old) }
    ensures taken { OnOk result (HasTaken (given_all switch (in_window number (left_of share.old))) many.old many.new) }
    ensures widths { OnOk result (AllByRecursion HasWidths (in_window number (left_of share.old))) }
    ensures left { OnOk result (left_of share.new ≡ after_window number (left_of share.old)) }
    ensures sound { OnOk result (IsSound share.new) }
    ensures ending { OnOk result (ending_of share.new ≡ ending_of share.old) }
{
    'tuples: while let Some(tuple) = share.take(number) {
        tuple.widths();
        many.packet(switch, &tuple)?;
    }
    Ok(())
}

/// Gives the switches from this number on, to each its own, the tuples that they saw in a window, which is the first that is left. All
/// of them are taken.
pub fn take_window(
    many: &mut Many,
    switch: u32,
    shares: &mut [Share],
    number: u64,
) -> Result<(), Memory>
    requires begun { is_between many.old.phase ≡ false }
    requires each { switch + length shares.old ≤ length many.old.switches.items }
    requires few { length many.old.switches.items ≤ 8 }
    requires sound { AllByRecursion IsSound shares.old }
    requires least { AllByRecursion (AtLeast number) (map left_of shares.old) }
    ensures taken { OnOk result (HasTaken (given_each switch (map (in_window number) (map left_of shares.old))) many.old many.new) }
    ensures widths { OnOk result (AllByRecursion HasWidths (together (map (in_window number) (map left_of shares.old)))) }
    ensures left { OnOk result (map left_of shares.new ≡ map (after_window number) (map left_of shares.old)) }
    ensures sound { OnOk result (AllByRecursion IsSound shares.new) }
    ensures endings { OnOk result (map ending_of shares.new ≡ map ending_of shares.old) }
{
    if let Some((first, rest)) = shares.split_first_mut() {
        take_share(many, switch, first, number)?;
        take_window(many, switch + 1, rest, number)?;
    }
    Ok(())
}
