//! The block of a window.
ghost use Rattle.std.specs.Prelude.{◌≡◌, ◌++◌, ◌<◌, length, OnOk, IfOk};
ghost use Rattle.std.specs.List.{flat_map, AllByRecursion};
ghost use Rattle.sn_out.specs.Text.{IsPartOf, window_words, query_words, level_words, rows_words, window_line, level_text, count_text, query_line, part_text};
ghost use Rattle.sn_out.specs.Text.{block_text};

use crate::pieces::{push_emitted, push_number};
use crate::rows::push_answer;
use sn_base::bytes::push_bytes;
use sn_base::memory::Memory;
use sn_base::name::Name;
use sn_base::seq::Seq;
use sn_types::answers::{Answers, Part};
use sn_types::typed::Typed;
use std::alloc::Global;

#[tactic(auto, unfolding(crate::specs::Text::window_words))]
fn push_window_words(text: &mut Vec<u8>) -> Result<(), Memory>
    ensures { OnOk result (text.new.items ≡ text.old.items ++ window_words) }
{
    push_bytes(text, b"window ")
}

fn push_window_line(text: &mut Vec<u8>, window: u64, emitted: Option<u64>) -> Result<(), Memory>
    ensures { OnOk result (text.new.items ≡ text.old.items ++ window_line window emitted) }
{
    push_window_words(text)?;
    push_number(text, window)?;
    push_emitted(text, emitted)?;
    push_bytes(text, b"\n")
}

#[tactic(auto, unfolding(crate::specs::Text::query_words))]
pub(crate) fn push_query_words(text: &mut Vec<u8>) -> Result<(), Memory>
    ensures { OnOk result (text.new.items ≡ text.old.items ++ query_words) }
{
    push_bytes(text, b"query ")
}

#[tactic(auto, unfolding(crate::specs::Text::level_words))]
fn push_level_words(text: &mut Vec<u8>) -> Result<(), Memory>
    ensures { OnOk result (text.new.items ≡ text.old.items ++ level_words) }
{
    push_bytes(text, b" level ")
}

#[tactic(auto, unfolding(crate::specs::Text::rows_words))]
fn push_rows_words(text: &mut Vec<u8>) -> Result<(), Memory>
    ensures { OnOk result (text.new.items ≡ text.old.items ++ rows_words) }
{
    push_bytes(text, b" rows ")
}

fn push_level(text: &mut Vec<u8>, level: u32) -> Result<(), Memory>
    ensures { OnOk result (text.new.items ≡ text.old.items ++ level_text level) }
{
    push_level_words(text)?;
    push_number(text, level as u64)
}

fn push_count(text: &mut Vec<u8>, rows: usize) -> Result<(), Memory>
    ensures { OnOk result (text.new.items ≡ text.old.items ++ count_text rows) }
{
    push_rows_words(text)?;
    push_number(text, rows as u64)?;
    push_bytes(text, b"\n")
}

fn push_query_line(text: &mut Vec<u8>, name: &Name, level: u32, rows: usize) -> Result<(), Memory>
    ensures { OnOk result (text.new.items ≡ text.old.items ++ query_line name.now level rows) }
{
    push_query_words(text)?;
    push_bytes(text, name.as_bytes())?;
    push_level(text, level)?;
    push_count(text, rows)
}

fn push_part(text: &mut Vec<u8>, t: &Typed, part: &Part) -> Result<(), Memory>
    requires { IsPartOf t.now.queries part.now }
    ensures { OnOk result (text.new.items ≡ text.old.items ++ part_text t.now.queries part.now) }
{
    push_query_line(text, &t.name(part.query), part.level, part.rows.len())?;
    push_answer(text, t.final_schema(part.query).as_slice(), &part.rows)
}

fn push_parts(text: &mut Vec<u8>, t: &Typed, parts: &[Part]) -> Result<(), Memory>
    requires { AllByRecursion (IsPartOf t.now.queries) parts.now }
    ensures { OnOk result (text.new.items ≡ text.old.items ++ flat_map (part_text t.now.queries) parts.now) }
{
    for part in parts {
        push_part(text, t, part)?;
    }
    Ok(())
}

/// The block of a window: the line of the window, with the number of emitted tuples where `counts` is given, and then
/// for each part its query's line and its rows.
pub fn block(alloc: Global, t: &Typed, a: &Answers, counts: bool) -> Result<Seq<u8>, Memory>
    requires { AllByRecursion (IsPartOf t.now.queries) a.now.parts }
    ensures { IfOk result (λ text. text ≡ block_text t.now.queries a.now counts) }
{
    let mut text = Vec::new(alloc);
    let emitted = if counts { Some(a.emitted) } else { None };
    push_window_line(&mut text, a.window, emitted)?;
    push_parts(&mut text, t, a.parts.as_slice())?;
    Ok(Seq::from_vec(text))
}
