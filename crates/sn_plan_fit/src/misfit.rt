//! Why a plan doesn't fit.

/// Which check fails.
#[derive(Clone, Copy, Debug, PartialEq, Eq)]
pub enum MisfitKind {
    /// An entry is no entry of its query, is missing, or is one too many: want 0, got its number from 0.
    Path,
    /// A cut is above the greatest one of its branch: want that one, got the cut.
    Cut,
    /// A piece has another number of sizes than distincts and reduces before its cut: want and got these numbers. Or a size
    /// is none of the switch's: want 0, got the size.
    Slots,
    /// A piece has another number of stages than registers: want and got these numbers. Or a register stands below the
    /// least stage that it may have: want that stage, got its own.
    Order,
    /// The tables of a piece pass the last stage: want the last stage, got the one that the last table needs. Of a piece
    /// without registers: want the number of stages, got the number of tables.
    Stage,
    /// More registers stand in one stage than the switch has actions: want the limit, got the number of registers.
    Actions,
    /// The registers of one stage have more bits than the switch: want the limit, got the bits.
    Bits,
    /// The pieces have more bits of metadata than the switch: want the limit, got the bits.
    Meta,
}

/// The first check that fails, with what it wants and what it got.
#[derive(Clone, Copy, Debug, PartialEq, Eq)]
pub struct Misfit {
    pub kind: MisfitKind,
    pub want: u64,
    pub got: u64,
}
