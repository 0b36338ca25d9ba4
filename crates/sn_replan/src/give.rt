//! The tuples of a window, given to a driver.
ghost use Rattle.std.specs.Prelude.{◌≡◌, [], ℕ, List, length, OnOk};
ghost use Rattle.std.specs.List.{AllByRecursion};
ghost use Rattle.sn_emit.specs.Plans.{AreLanesOf, Placed};
ghost use Rattle.sn_emit.specs.declared.tables.Tables.{Tables};
ghost use Rattle.sn_engine_lockstep.specs.declared.source.Source.{Source};
ghost use Rattle.sn_engine_lockstep.specs.Work.{AreAtWork, AreUnread};
ghost use Rattle.sn_refine.specs.Steps.{Set};
ghost use Rattle.sn_types.specs.declared.typed_query.TypedQuery.{TypedQuery};
ghost use Rattle.sn_types.specs.Typed.{HasWidths};

use sn_base::memory::Memory;
use sn_engine_lockstep::driver::Driver;
use sn_engine_lockstep::wire::Nobody;
use sn_fields::tuple::Tuple;

/// Gives the tuples of the window that was begun, in their order.
pub(crate) fn give(driver: &mut Driver, tuples: &[Tuple]) -> Result<(), Memory>
    requires { AreUnread driver.old.emitter }
    ensures work { OnOk result ((queries : List TypedQuery) (tables : Tables) (pieces : List Placed) (kept : Source → Set) →
        AreAtWork queries tables pieces kept [] driver.old.emitter driver.old.engine.lanes.items →
        AreAtWork queries tables pieces kept tuples.now driver.new.emitter driver.new.engine.lanes.items) }
    ensures widths { OnOk result (AllByRecursion HasWidths tuples.now) }
    ensures lanes { OnOk result ((queries : List TypedQuery) (tables : Tables) (pieces : List Placed) → AreLanesOf queries tables pieces driver.old.emitter →
        AreLanesOf queries tables pieces driver.new.emitter) }
    ensures count { OnOk result (length driver.new.emitter ≡ length driver.old.emitter) }
    ensures queries { driver.new.engine.t.queries ≡ driver.old.engine.t.queries }
    ensures closed { driver.new.engine.closed ≡ driver.old.engine.closed }
    ensures prefixes { driver.new.engine.kept ≡ driver.old.engine.kept }
    ensures sources { driver.new.sources ≡ driver.old.sources }
{
    for tuple in tuples {
        tuple.widths();
        driver.packet(&mut Nobody, tuple)?;
    }
    Ok(())
}
