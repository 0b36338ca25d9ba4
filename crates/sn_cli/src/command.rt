//! The commands that words spell.

/// Words that spell no command.
#[derive(Clone, Copy, Debug, PartialEq, Eq)]
pub enum WordFault {
    /// The words aren't in the grammar.
    Usage,
}

/// A command with what its options say. Its file words stand at the places from 1 on.
#[derive(Clone, Copy, Debug, PartialEq, Eq)]
pub enum Command {
    /// `plain QUERIES CAPTURE`: the answers of each query, unsplit.
    Plain,
    /// `plan SWITCH QUERIES TRAIN [--nodes N]`: a plan, its cost, and the tree that no plan costs less.
    Plan {
        /// The most nodes that the tree may expand, 1 to 1000000.
        nodes: u32,
    },
    /// `plan SWITCH QUERIES TRAIN --prices [--nodes N]`: a plan, its cost, and prices that show what no plan costs less than.
    PlanPrices {
        /// The most steps of each attempt to make a cheaper plan, 1 to 1000000.
        nodes: u32,
    },
    /// `run SWITCH QUERIES PLAN CAPTURE [--csv]`: the answers along a plan, and the tuples emitted.
    Run {
        /// The answers as comma-separated values.
        csv: bool,
    },
    /// `emit SWITCH QUERIES PLAN CAPTURE`: the report frames of the switch.
    Emit,
    /// `finish QUERIES PLAN REPORTS`: the answers from report frames alone.
    Finish,
    /// `check SWITCH QUERIES TRAIN PLANTREE`: whether plan, cost and tree hold.
    Check,
    /// `live SWITCH QUERIES TRAIN CAPTURE [--nodes N] [--schedule K] [--trace]`: a plan, and the answers along it.
    Live {
        /// The most nodes that the tree may expand, 1 to 1000000.
        nodes: u32,
        /// The number of the schedule.
        schedule: u32,
        /// The events among the blocks.
        trace: bool,
    },
    /// `detect QUERIES PLAN CAPTURE`: how late what a query answers is printed along a plan.
    Detect,
    /// `many SWITCH QUERIES PLAN CAPTURE CAPTURE { CAPTURE }`: the answers of several switches along one plan.
    Many {
        /// How many captures there are, one for each switch, 2 to 8.
        captures: u32,
    },
    /// `replan SWITCH QUERIES TRAIN CAPTURE MOST [--nodes N]`: a plan, and the answers along plans that follow the traffic.
    Replan {
        /// How many items of a window may leave the switch before their cut.
        most: u32,
        /// The most nodes that a tree may expand, 1 to 1000000.
        nodes: u32,
    },
    /// `gen NUMBER`: a made capture.
    Gen {
        /// The number of the capture.
        number: u32,
    },
    /// `job NUMBER`: the summary of a made job.
    Job {
        /// The number of the job.
        number: u32,
    },
}
