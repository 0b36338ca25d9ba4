//! The switch and the plan of files.
ghost use Rattle.std.specs.Prelude.{◌≡◌, ◌≤◌, ◌^◌, [], ◌∷◌, length, IfOk};
ghost use Rattle.sn_command_texts.specs.Texts.{PlanIn, SwitchIn, plan_refusal, switch_refusal};
ghost use Rattle.sn_command.specs.Desks.{world};
ghost use Rattle.sn_command.specs.Runs.{Answers, Works, WorksFrom};
ghost use Rattle.sn_command.specs.Stages.{Text};
ghost use Rattle.sn_switch.specs.Texts.{IsSwitch};

use sn_command::desk::Desk;
use sn_command::fault::{Fault, TextFault, TextKind};
use sn_command::files::{MOST_TEXT, read_file};
use sn_command::refusal::Refusal;
use sn_io::inputs::Inputs;
use sn_io::sink::Sink;
use sn_plan::fault::PlanFault;
use sn_plan::parse as parse_plan;
use sn_plan_grammar::plan::Plan;
use sn_switch::fault::SwitchFault;
use sn_switch::parse as parse_switch;
use sn_switch::switch::Switch;
use std::alloc::Global;

fn switch_refusal(fault: SwitchFault) -> Refusal
    ensures { result ≡ switch_refusal fault }
{
    let (kind, line) = match fault {
        SwitchFault::Lex { line } => (TextKind::Lex, line),
        SwitchFault::Expected { line } => (TextKind::Expected, line),
        SwitchFault::Range { line } => (TextKind::Range, line),
        SwitchFault::Twice { line } => (TextKind::Twice, line),
        SwitchFault::Missing { line } => (TextKind::Missing, line),
        SwitchFault::Memory => return Refusal::Memory,
    };
    Refusal::Refused(Fault::Switch(TextFault { kind, line }))
}

/// The switch of a text.
fn judge_switch(alloc: Global, text: &[u8]) -> Result<Switch, Refusal>
    requires { length text.now ≤ 2 ^ 30 }
    ensures answers { Answers (SwitchIn text.now) result }
    ensures limits { IfOk result (λ switch. IsSwitch switch) }
{
    match parse_switch(alloc, text) {
        Ok(switch) => Ok(switch),
        Err(fault) => Err(switch_refusal(fault)),
    }
}

/// Reads the switch of a file.
pub fn read_switch<I: Inputs, O: Sink>(
    alloc: Global,
    desk: &mut Desk<'_, I, O>,
    name: &str,
) -> Result<Switch, Refusal>
    ensures works { WorksFrom 1 (name.now ∷ []) (Text name.now SwitchIn) (world I.Inputs O.Sink desk.old) result (world I.Inputs O.Sink desk.new) }
    ensures limits { IfOk result (λ switch. IsSwitch switch) }
{
    let text = read_file(alloc, desk, name, MOST_TEXT)?;
    judge_switch(alloc, text.as_slice())
}

/// The refusal of a plan text that has this fault.
pub fn plan_refusal(fault: PlanFault) -> Refusal
    ensures { result ≡ plan_refusal fault }
{
    let (kind, line) = match fault {
        PlanFault::Lex { line } => (TextKind::Lex, line),
        PlanFault::Expected { line } => (TextKind::Expected, line),
        PlanFault::Memory => return Refusal::Memory,
    };
    Refusal::Refused(Fault::Plan(TextFault { kind, line }))
}

/// The plan of a text, up to the word `cost`.
fn judge_plan(alloc: Global, text: &[u8]) -> Result<Plan, Refusal>
    requires { length text.now ≤ 2 ^ 30 }
    ensures { Answers (PlanIn text.now) result }
{
    match parse_plan(alloc, text) {
        Ok((plan, _)) => Ok(plan),
        Err(fault) => Err(plan_refusal(fault)),
    }
}

/// Reads the plan of a file, up to the word `cost`.
pub fn read_plan<I: Inputs, O: Sink>(
    alloc: Global,
    desk: &mut Desk<'_, I, O>,
    name: &str,
) -> Result<Plan, Refusal>
    ensures { Works (name.now ∷ []) (Text name.now PlanIn) (world I.Inputs O.Sink desk.old) result (world I.Inputs O.Sink desk.new) }
{
    let text = read_file(alloc, desk, name, MOST_TEXT)?;
    judge_plan(alloc, text.as_slice())
}
