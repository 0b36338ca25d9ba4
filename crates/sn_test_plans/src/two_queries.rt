//! A small space of plans, with the bounds of a worked example.
ghost use Rattle.std.specs.Prelude.{◌≡◌};
ghost use Rattle.sn_tree_space.specs.Readers.{read};
ghost use Rattle.sn_tree_space.specs.Space.{IsPlan};
ghost use Rattle.sn_test_plans.specs.TwoQueries.{turn_after, first_after, second_after, after, next, lower, is_bad, reader, two_queries};
ghost use Rattle.sn_test_plans.specs.Laws.{two_queries_laws};

use sn_tree_space::follow::Follow;
use sn_tree_space::plans::Plans;

/// What is chosen next.
#[derive(Clone, Copy)]
pub enum Turn {
    FirstPath,
    FirstOption,
    FirstStage,
    SecondPath,
    SecondOption,
    SecondStage,
    Nothing,
}

/// What a list of choices has come to.
#[derive(Clone, Copy)]
pub struct State {
    /// What is chosen next.
    pub turn: Turn,
    /// Whether the first query's option takes a register.
    pub first: bool,
    /// Whether the second query's does.
    pub second: bool,
}

/// The plans of two queries on a switch with room for one register, in stage 1.
///
/// For each query the path is chosen, which is number 0, and one of three options. The first two options emit 5 items. The last one takes a
/// register, for which stage 1 is chosen, and emits 1 item of the first query and 3 of the second.
#[derive(Clone, Copy)]
pub struct TwoQueries;

/// What is chosen after a choice, by whether that was the last option.
fn turn_after(turn: Turn, last: bool) -> Turn
    ensures { result ≡ turn_after turn last }
{
    match turn {
        Turn::FirstPath => Turn::FirstOption,
        Turn::FirstOption => {
            if last {
                Turn::FirstStage
            } else {
                Turn::SecondPath
            }
        }
        Turn::FirstStage => Turn::SecondPath,
        Turn::SecondPath => Turn::SecondOption,
        Turn::SecondOption => {
            if last {
                Turn::SecondStage
            } else {
                Turn::Nothing
            }
        }
        Turn::SecondStage | Turn::Nothing => Turn::Nothing,
    }
}

fn first_after(turn: Turn, last: bool, first: bool) -> bool
    ensures { result ≡ first_after turn last first }
{
    match turn {
        Turn::FirstOption => last,
        _ => first,
    }
}

fn second_after(turn: Turn, last: bool, second: bool) -> bool
    ensures { result ≡ second_after turn last second }
{
    match turn {
        Turn::SecondOption => last,
        _ => second,
    }
}

/// After one more choice.
fn after(state: State, choice: u32) -> State
    ensures { result ≡ after state choice }
{
    let last = choice == 2;
    State {
        turn: turn_after(state.turn, last),
        first: first_after(state.turn, last, state.first),
        second: second_after(state.turn, last, state.second),
    }
}

/// What these choices have come to.
fn state_of(choices: &[u32]) -> State
    ensures { result ≡ read reader choices.now }
{
    let mut state = State {
        turn: Turn::FirstPath,
        first: false,
        second: false,
    };
    for choice in choices {
        state = after(state, *choice);
    }
    state
}

fn next(turn: Turn) -> Follow
    ensures { result ≡ next turn }
{
    match turn {
        Turn::FirstPath | Turn::SecondPath => Follow::Choices(0, 1),
        Turn::FirstOption | Turn::SecondOption => Follow::Choices(0, 3),
        Turn::FirstStage | Turn::SecondStage => Follow::Choices(1, 1),
        Turn::Nothing => Follow::Complete,
    }
}

fn lower_of(turn: Turn, first: bool, second: bool) -> u64
    ensures { result ≡ lower turn first second }
{
    let of_first = if first { 1 } else { 5 };
    let of_second = if second { 3 } else { 5 };
    match turn {
        Turn::FirstPath | Turn::FirstOption => 4,
        Turn::FirstStage | Turn::SecondPath | Turn::SecondOption => of_first + 3,
        Turn::SecondStage | Turn::Nothing => of_first + of_second,
    }
}

/// Whether two registers are placed.
fn is_bad(turn: Turn, first: bool, second: bool) -> bool
    ensures { result ≡ is_bad turn first second }
{
    match turn {
        Turn::Nothing => first && second,
        _ => false,
    }
}

impl Plans for TwoQueries {
    ghost space = { λ a. two_queries };

    ghost laws = { λ a. two_queries_laws };

    fn next_choices(&self, partial: &[u32]) -> Follow {
        next(state_of(partial).turn)
    }

    fn is_broken(&self, partial: &[u32]) -> bool {
        let state = state_of(partial);
        is_bad(state.turn, state.first, state.second)
    }

    fn lower(&self, partial: &[u32]) -> u64 {
        let state = state_of(partial);
        lower_of(state.turn, state.first, state.second)
    }
}

/// A plan: the last option of the first query, and the first of the second.
#[tactic(auto, using(crate::specs::Laws::first_plan))]
pub fn plan() -> [u32; 5]
    ensures { IsPlan two_queries result }
{
    [0, 2, 1, 0, 0]
}
