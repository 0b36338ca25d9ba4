//! A plan with what shows that none costs less.

use sn_base::seq::Seq;
use sn_plan_grammar::plan::Plan;
use sn_tree_text::tree::Tree;

/// A plan with what shows that no plan that fits costs less.
#[derive(Drop)]
pub struct Certificate {
    pub plan: Plan,
    /// How many items the plan sends over the training windows.
    pub cost: u64,
    /// The choices that name the plan.
    pub choices: Seq<u32>,
    /// The plan's tree of bounds.
    pub tree: Tree,
}
