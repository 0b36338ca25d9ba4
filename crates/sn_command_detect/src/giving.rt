//! A window is given to all refined queries.
ghost use Rattle.std.specs.Prelude.{OnOk};
ghost use Rattle.std.specs.List.{AllByRecursion};
ghost use Rattle.sn_command_detect.specs.Watching.{AreGiven, IsGiven};
ghost use Rattle.sn_types.specs.Typed.{HasWidths};
ghost use Rattle.sn_windows.specs.Rising.{IsAbove};

use sn_base::memory::Memory;
use sn_detect::detect::Detect;
use sn_fields::tuple::Tuple;

/// Gives a window to one.
fn give_one(detect: &mut Detect, w: u64, tuples: &[Tuple]) -> Result<(), Memory>
    requires above { IsAbove detect.old.refined.last w }
    requires widths { AllByRecursion HasWidths tuples.now }
    ensures { OnOk result (IsGiven w tuples.now detect.old detect.new) }
{
    let _ = detect.window(w, tuples)?;
    Ok(())
}

/// Gives a window to each of these.
pub(crate) fn give(detects: &mut [Detect], w: u64, tuples: &[Tuple]) -> Result<(), Memory>
    requires above { AllByRecursion (λ d. IsAbove d.refined.last w) detects.old }
    requires widths { AllByRecursion HasWidths tuples.now }
    ensures { OnOk result (AreGiven w tuples.now detects.old detects.new) }
{
    if let Some((first, rest)) = detects.split_first_mut() {
        give_one(first, w, tuples)?;
        give(rest, w, tuples)?;
    }
    Ok(())
}
