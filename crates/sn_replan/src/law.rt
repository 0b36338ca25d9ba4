//! What the epochs of windows are, for any way of planning on a window. A program never calls this function; it states a fact
//! about the definition of epochs. The contracts of `Epochs` don't cite that: its caller says when a plan is put in place.
ghost use Rattle.std.specs.Prelude.{ℕ, List, [], Result};
ghost use Rattle.sn_plan_grammar.specs.declared.plan.Entry.{Entry};
ghost use Rattle.sn_replan.specs.Epochs.{AreEpochs, epochs_from};
ghost use Rattle.sn_types.specs.declared.typed_query.TypedQuery.{TypedQuery};
ghost use Rattle.sn_windows.specs.Rising.{Window};
ghost use Rattle.sn_emit.specs.declared.tables.Tables.{Tables};

/// The windows of a capture have these epochs: the first has the first plan; each goes on up to its first window that is over; and
/// if another follows that window, the next epoch begins with it, along what is planned on the one that was over alone. Each epoch
/// after the first holds a window.
pub fn epochs_change_after_windows_that_are_over<P, F>()
    ensures { (queries : List TypedQuery) (tables : Tables) (entries_of : P → List Entry) (planned : Window → Result P F) (most : ℕ)
        (first : P) (windows : List Window) →
        AreEpochs queries tables entries_of planned most first windows (epochs_from queries tables entries_of planned most first [] windows) }
{}
