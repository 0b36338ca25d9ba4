//! The summary of a job.
ghost use Rattle.std.specs.Prelude.{◌≡◌, ◌++◌, codes, length, IfOk, OnOk};
ghost use Rattle.std.specs.Fmt.{decimal};
ghost use Rattle.std.specs.List.{flat_map, AllByRecursion};
ghost use Rattle.sn_base.specs.Columns.{IsOf};
ghost use Rattle.sn_out.specs.Text.{IsPartOf};
ghost use Rattle.sn_types.specs.Typed.{query_at};
ghost use Rattle.sn_command_job.specs.Summary.{job_line, number_line, rows_text, shown, shown_part, summary_text};

use crate::summing::Summing;
use sn_base::bytes::push_bytes;
use sn_base::memory::Memory;
use sn_base::seq::Seq;
use sn_gen::capture::packet_count;
use sn_out::pieces::push_number;
use sn_out::rows::push_answer;
use sn_types::answers::{Answers, Part};
use sn_types::typed::Typed;

/// The window whose rows are shown.
const SHOWN_WINDOW: u64 = 3;

/// Adds words and a number on a line of their own.
fn push_line(text: &mut Vec<u8>, words: &[u8], number: u64) -> Result<(), Memory>
    ensures { OnOk result (text.new.items ≡ text.old.items ++ number_line words.now number) }
{
    push_bytes(text, words)?;
    push_number(text, number)?;
    push_bytes(text, b"\n")
}

/// Adds the first line: the number of the job, how many packets the captures have, and how many windows were answered.
fn push_job_line(text: &mut Vec<u8>, number: u32, windows: u64) -> Result<(), Memory>
    ensures { OnOk result (text.new.items ≡ text.old.items ++ job_line number windows) }
{
    push_bytes(text, b"job ")?;
    push_number(text, u64::from(number))?;
    push_bytes(text, b" packets ")?;
    push_number(text, u64::from(packet_count()))?;
    push_line(text, b" windows ", windows)
}

/// Adds the rows that a query answers.
fn push_rows_of(text: &mut Vec<u8>, t: &Typed, part: &Part) -> Result<(), Memory>
    requires { IsPartOf t.now.queries part.now }
    ensures { OnOk result (text.new.items ≡ text.old.items ++ rows_text (query_at t.now.queries part.now.query) part.now.rows) }
{
    push_bytes(text, b"query ")?;
    push_bytes(text, t.name(part.query).as_bytes())?;
    push_line(text, b" rows ", part.rows.len() as u64)?;
    push_answer(text, t.final_schema(part.query).as_slice(), &part.rows)
}

/// Adds what a query answers, where that is at its finest level.
fn push_shown_part(text: &mut Vec<u8>, t: &Typed, part: &Part) -> Result<(), Memory>
    requires { IsPartOf t.now.queries part.now }
    ensures { OnOk result (text.new.items ≡ text.old.items ++ shown_part t.now.queries part.now) }
{
    if part.level == t.finest_level(part.query) {
        push_rows_of(text, t, part)
    } else {
        Ok(())
    }
}

fn push_parts(text: &mut Vec<u8>, t: &Typed, parts: &[Part]) -> Result<(), Memory>
    requires { AllByRecursion (IsPartOf t.now.queries) parts.now }
    ensures { OnOk result (text.new.items ≡ text.old.items ++ flat_map (shown_part t.now.queries) parts.now) }
{
    for part in parts {
        push_shown_part(text, t, part)?;
    }
    Ok(())
}

/// Adds what is shown of a window's answers.
pub(crate) fn push_shown(text: &mut Vec<u8>, t: &Typed, answers: &Answers) -> Result<(), Memory>
    requires { AllByRecursion (IsPartOf t.now.queries) answers.now.parts }
    ensures { OnOk result (text.new.items ≡ text.old.items ++ shown t.now.queries answers.now) }
{
    if answers.window == SHOWN_WINDOW {
        push_parts(text, t, answers.parts.as_slice())
    } else {
        Ok(())
    }
}

/// The summary of a job, after this many windows.
pub(crate) fn summary_text<M: Drop>(summing: &Summing<M>, windows: u64) -> Result<Seq<u8>, Memory>
    ensures { IfOk result (λ text. let s = summing.now in text ≡ summary_text s.number s.cost s.nodes windows s.along.emitted s.shown.items) }
{
    let mut text = Vec::new(summing.along.alloc);
    push_job_line(&mut text, summing.number, windows)?;
    push_line(&mut text, b"cost ", summing.cost)?;
    push_line(&mut text, b"emitted ", summing.along.emitted)?;
    push_line(&mut text, b"nodes ", summing.nodes)?;
    push_bytes(&mut text, summing.shown.as_slice())?;
    Ok(Seq::from_vec(text))
}
