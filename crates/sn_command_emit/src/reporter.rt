//! A plan that reports the windows of a capture.

use sn_emit::tables::Tables;
use sn_engine_lockstep::driver::Driver;
use sn_plan_grammar::plan::Plan;
use sn_types::answers::Answers;
use sn_types::typed::Typed;

/// A plan that fits a switch, its lanes, and the engine, since what a level admits depends on the answers of the level before it, in
/// the window before; and the bytes of the frames of the current window.
#[derive(Drop)]
pub struct Reporter {
    pub typed: Typed,
    pub plan: Plan,
    /// The room of the switch for registers and prefixes.
    pub tables: Tables,
    pub driver: Driver,
    /// Answers of the last window, right at each level that another one admits.
    pub last: Option<Answers>,
    /// The bytes of the frames of the current window.
    pub sent: Vec<u8>,
}
