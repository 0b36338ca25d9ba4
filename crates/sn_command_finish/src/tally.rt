//! What came of the reports so far.

use sn_engine::engine::Engine;

/// The engine, how many windows it closed, and how many items came in them.
#[derive(Drop)]
pub struct Tally {
    pub engine: Engine,
    pub windows: u64,
    pub emitted: u64,
}
