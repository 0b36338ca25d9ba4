//! Where a reader of choices stands.
ghost use Rattle.std.specs.Prelude.{◌≡◌, ◌≤◌, ℕ, List, [], ◌∷◌, map, Some, None};
ghost use Rattle.sn_switch.specs.declared.switch.Switch.{Switch};
ghost use Rattle.sn_tree_space.specs.Readers.{MayFollow};
ghost use Rattle.sn_tree_space.specs.Agendas.{Agenda, first_choices};
ghost use Rattle.sn_plan_choices.specs.Planning.{Task, Taken, planning};
ghost use Rattle.sn_plan_space.specs.Positions.{Stands, GoesTo};

use crate::known::{KnownPiece, KnownQuery, Slot};
use crate::place::next_waiting;
use crate::waiting::Waiting;

/// What is still to be chosen, and what was spent.
#[derive(Clone, Copy)]
pub struct Position<'a> {
    /// The current register, if there is one.
    pub waiting: Option<Waiting<'a>>,
    /// The pieces of the current path whose options are still to be chosen.
    pub pieces: &'a [KnownPiece],
    /// The queries whose paths are still to be chosen.
    pub queries: &'a [KnownQuery],
    /// What the options chosen cost, at most 2^64 - 1.
    pub spent: u64,
}

/// A register in a stage.
#[derive(Clone, Copy)]
pub struct Standing {
    pub stage: u32,
    /// At most 2^64 - 1.
    pub bits: u64,
}

/// What a choice takes up.
#[derive(Clone, Copy)]
pub struct Took {
    pub register: Option<Standing>,
    /// Bits of metadata.
    pub metadata: u64,
    /// Whether a table is past the last stage.
    pub is_past: bool,
}

/// Nothing is taken up.
const NOTHING: Took = Took {
    register: None,
    metadata: 0,
    is_past: false,
};

/// Gives the current register a stage.
fn place<'a>(
    position: Position<'a>,
    waiting: Waiting<'a>,
    stages: u32,
    stage: u32,
) -> (Position<'a>, Took)
    requires few { stages ≤ 32 }
    requires waits { position.waiting ≡ Some waiting }
    ensures { GoesTo stages position.entry stage result.0 result.1 }
{
    if stage >= stages {
        return (position, NOTHING);
    }
    let (next, is_past) = next_waiting(stages, stage + 1, waiting.following);
    let register = Some(Standing {
        stage,
        bits: waiting.bits,
    });
    (
        Position {
            waiting: next,
            pieces: position.pieces,
            queries: position.queries,
            spent: position.spent,
        },
        Took {
            register,
            metadata: 0,
            is_past,
        },
    )
}

/// Chooses an option of the current piece, with these pieces after it.
fn choose_option<'a>(
    position: Position<'a>,
    piece: &'a KnownPiece,
    following: &'a [KnownPiece],
    stages: u32,
    n: u32,
) -> (Position<'a>, Took)
    requires waits { position.waiting ≡ None }
    requires pieces { position.pieces.now ≡ piece.now ∷ following.now }
    ensures { GoesTo stages position.entry n result.0 result.1 }
{
    let Some(option) = piece.options.as_slice().get(n as usize) else {
        return (position, NOTHING);
    };
    let (waiting, is_past) = next_waiting(stages, 0, option.slots.as_slice());
    (
        Position {
            waiting,
            pieces: following,
            queries: position.queries,
            spent: position.spent.saturating_add(option.cost),
        },
        Took {
            register: None,
            metadata: option.metadata,
            is_past,
        },
    )
}

/// Chooses a path of the current query, with these queries after it.
fn choose_path<'a>(
    position: Position<'a>,
    query: &'a KnownQuery,
    following: &'a [KnownQuery],
    m: u32,
) -> (Position<'a>, Took)
    requires waits { position.waiting ≡ None }
    requires pieces { position.pieces.now ≡ [] }
    requires queries { position.queries.now ≡ query.now ∷ following.now }
    ensures { (stages : ℕ) → GoesTo stages position.entry m result.0 result.1 }
{
    let Some(path) = query.paths.as_slice().get(m as usize) else {
        return (position, NOTHING);
    };
    (
        Position {
            waiting: None,
            pieces: path.as_slice(),
            queries: following,
            spent: position.spent,
        },
        NOTHING,
    )
}

/// Where a choice leads on a switch of this many stages, and what it takes up.
pub fn after<'a>(position: Position<'a>, stages: u32, choice: u32) -> (Position<'a>, Took)
    requires { stages ≤ 32 }
    ensures { GoesTo stages position.entry choice result.0 result.1 }
{
    if let Some(waiting) = position.waiting {
        return place(position, waiting, stages, choice);
    }
    if let Some((piece, following)) = position.pieces.split_first() {
        return choose_option(position, piece, following, stages, choice);
    }
    if let Some((query, following)) = position.queries.split_first() {
        return choose_path(position, query, following, choice);
    }
    (position, NOTHING)
}
