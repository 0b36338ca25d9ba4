//! The plan that follows a window.
ghost use Rattle.std.specs.Prelude.{◌≡◌, ◌<◌, ◌≤◌, [], ◌∷◌, IfOk, length};
ghost use Rattle.sn_command_replan.specs.Searched.{searched_on};
ghost use Rattle.sn_plan_fit.specs.Fits.{Fits};
ghost use Rattle.sn_switch.specs.Texts.{IsSwitch};
ghost use Rattle.sn_windows.specs.Blocks.{most_records};

use sn_base::memory::Memory;
use sn_base::seq::Seq;
use sn_command::fault::Fault;
use sn_command::refusal::Refusal;
use sn_command_search::certificate::Certificate;
use sn_command_search::search::search;
use sn_cost_training::training::Training;
use sn_fields::tuple::Tuple;
use sn_switch::switch::Switch;
use sn_types::typed::Typed;
use std::alloc::Global;

/// What is planned on the window with this number and these tuples alone, where a search may expand this many nodes.
pub(crate) fn planned(
    alloc: Global,
    typed: &Typed,
    limits: &Switch,
    nodes: u32,
    number: u64,
    tuples: Seq<Tuple>,
) -> Result<Result<Certificate, Fault>, Memory>
    requires switch { IsSwitch limits.now }
    requires some { 0 < length tuples }
    requires few { length tuples ≤ most_records }
    ensures verdict { IfOk result (λ verdict. verdict ≡ searched_on limits.now typed.now.queries nodes ((number, tuples) ∷ [])) }
    ensures fits { IfOk result (λ verdict. IfOk verdict (λ c. Fits typed.now.queries limits.now c.plan.entries)) }
{
    let mut training = Training::new(alloc);
    training.add(number, tuples)?;
    match search(alloc, typed, limits, &training, nodes) {
        Ok(certificate) => Ok(Ok(certificate)),
        Err(Refusal::Refused(fault)) => Ok(Err(fault)),
        Err(_) => Err(Memory),
    }
}
