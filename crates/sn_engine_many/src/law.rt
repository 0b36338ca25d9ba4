//! What several switches answer over windows. A program never calls this function; it states a fact about windows that are closed one
//! after another, each with the prefixes that the one before it answered.
ghost use Rattle.std.specs.Prelude.{◌≡◌, ℕ, List, None, map};
ghost use Rattle.sn_emit.specs.declared.tables.Tables.{Tables};
ghost use Rattle.sn_engine_many.specs.Answers.{SharedWindow, in_one, many_answers, shared_from};
ghost use Rattle.sn_plan_fit.specs.Fits.{AreEntriesOf};
ghost use Rattle.sn_plan_grammar.specs.declared.plan.Entry.{Entry};
ghost use Rattle.sn_refine.specs.Steps.{windows_of};
ghost use Rattle.sn_types.specs.declared.typed_query.TypedQuery.{TypedQuery};
ghost use Rattle.sn_windows.specs.Rising.{AreRising};

/// Windows that are closed by rising number, each with the prefixes that the one before it answered, get the refined answers along
/// the plan of the tuples of all switches together, and the number of the items that its pieces send in all switches, of what comes
/// to their levels of each capture.
pub fn windows_of_many_get_the_answers_of_the_plan()
    ensures { (queries : List TypedQuery) (tables : Tables) (entries : List Entry) (given : List SharedWindow) →
        AreEntriesOf queries entries → AreRising None (map in_one given) →
        shared_from queries tables entries None given
        ≡ map (λ g. many_answers queries tables entries (windows_of (map in_one given)) g.0 g.1) given }
{}
