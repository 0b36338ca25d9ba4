//! All refined queries of a plan, before any window.
ghost use Rattle.std.specs.Prelude.{[], IfOk};
ghost use Rattle.sn_command_detect.specs.Detected.{watched_from};
ghost use Rattle.sn_command_detect.specs.Watching.{AreAfter};
ghost use Rattle.sn_plan_fit.specs.Fits.{AreEntriesOf};

use sn_base::memory::Memory;
use sn_detect::detect::Detect;
use sn_plan_grammar::plan::Entry;
use sn_types::typed::Typed;
use std::alloc::Global;

/// All refined queries of these entries, each beside itself unrefined, before any window.
pub(crate) fn detects(
    alloc: Global,
    typed: &Typed,
    entries: &[Entry],
) -> Result<Vec<Detect>, Memory>
    requires { AreEntriesOf typed.now.queries entries.now }
    ensures { IfOk result (λ made. AreAfter typed.now.queries [] (watched_from typed.now.queries 0 entries.now) made.items) }
{
    let mut made = Vec::new(alloc);
    for q in 0..typed.queries() {
        if typed.refine_field(q).is_some() {
            let levels = entries[q as usize].levels.as_slice();
            let detect = Detect::make(alloc, typed, q, levels)?;
            made.push(detect)?;
        }
    }
    Ok(made)
}
