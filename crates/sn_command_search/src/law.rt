//! Laws of certificates, with nothing to run.
ghost use Rattle.std.specs.Prelude.{ℕ, List, Ok};
ghost use Rattle.sn_command_search.specs.Certificates.{SearchedIn};
ghost use Rattle.sn_command_search.specs.Shown.{ShowsLeast};
ghost use Rattle.sn_command_search.specs.declared.certificate.Certificate.{Certificate};
ghost use Rattle.sn_windows.specs.Rising.{Window};
ghost use Rattle.sn_command.specs.Stages.{HasVerdict};
ghost use Rattle.sn_switch.specs.Texts.{IsSwitch};
ghost use Rattle.sn_switch.specs.declared.switch.Switch.{Switch};
ghost use Rattle.sn_types.specs.declared.typed_query.TypedQuery.{TypedQuery};
ghost use Rattle.sn_types.specs.Typed.{IsTyped};

use sn_plan_lists::law::{
    least_lists_name_cheapest_plans, lists_name_fitting_plans, typed_queries_and_switches_rise,
};

/// A search answers in exactly one way, whatever the queries, the switch, the training windows and the number of nodes.
pub fn searches_have_one_verdict()
    ensures { (s : Switch) (queries : List TypedQuery) (given : List Window) (nodes : ℕ) → HasVerdict (SearchedIn s queries given nodes) }
{}

/// The plan of a certificate fits, and no plan that fits costs less, which the tree shows.
pub fn certificates_show_least()
    ensures { (s : Switch) (window : ℕ) (queries : List TypedQuery) (given : List Window) (nodes : ℕ) (c : Certificate) → ∥ IsTyped window queries ∥₁ →
        IsSwitch s → SearchedIn s queries given nodes (Ok c) → ShowsLeast s queries given c }
{
    typed_queries_and_switches_rise();
    lists_name_fitting_plans();
    least_lists_name_cheapest_plans();
}
