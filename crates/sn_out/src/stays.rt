//! The lines of stays.
ghost use Rattle.std.specs.Prelude.{◌≡◌, ◌++◌, OnOk};
ghost use Rattle.sn_out.specs.Text.{bound_line, bound_text, levels_text, printed_text, span_text, stay_line, window_text, yes_text};
ghost use Rattle.sn_out.specs.Text.{bound_words, from_words, levels_words, never_words, no_words, printed_words, to_words, yes_words};

use crate::block::push_query_words;
use crate::pieces::push_number;
use crate::rows::push_value;
use sn_base::bytes::push_bytes;
use sn_base::column::Column;
use sn_base::memory::Memory;
use sn_base::name::Name;

#[tactic(auto, unfolding(crate::specs::Text::levels_words))]
fn push_levels_words(text: &mut Vec<u8>) -> Result<(), Memory>
    ensures { OnOk result (text.new.items ≡ text.old.items ++ levels_words) }
{
    push_bytes(text, b" levels ")
}

#[tactic(auto, unfolding(crate::specs::Text::bound_words))]
fn push_bound_words(text: &mut Vec<u8>) -> Result<(), Memory>
    ensures { OnOk result (text.new.items ≡ text.old.items ++ bound_words) }
{
    push_bytes(text, b" bound ")
}

#[tactic(auto, unfolding(crate::specs::Text::yes_words))]
fn push_yes_words(text: &mut Vec<u8>) -> Result<(), Memory>
    ensures { OnOk result (text.new.items ≡ text.old.items ++ yes_words) }
{
    push_bytes(text, b"yes")
}

#[tactic(auto, unfolding(crate::specs::Text::no_words))]
fn push_no_words(text: &mut Vec<u8>) -> Result<(), Memory>
    ensures { OnOk result (text.new.items ≡ text.old.items ++ no_words) }
{
    push_bytes(text, b"no")
}

#[tactic(auto, unfolding(crate::specs::Text::from_words))]
fn push_from_words(text: &mut Vec<u8>) -> Result<(), Memory>
    ensures { OnOk result (text.new.items ≡ text.old.items ++ from_words) }
{
    push_bytes(text, b" from ")
}

#[tactic(auto, unfolding(crate::specs::Text::to_words))]
fn push_to_words(text: &mut Vec<u8>) -> Result<(), Memory>
    ensures { OnOk result (text.new.items ≡ text.old.items ++ to_words) }
{
    push_bytes(text, b" to ")
}

#[tactic(auto, unfolding(crate::specs::Text::printed_words))]
fn push_printed_words(text: &mut Vec<u8>) -> Result<(), Memory>
    ensures { OnOk result (text.new.items ≡ text.old.items ++ printed_words) }
{
    push_bytes(text, b" printed ")
}

#[tactic(auto, unfolding(crate::specs::Text::never_words))]
fn push_never_words(text: &mut Vec<u8>) -> Result<(), Memory>
    ensures { OnOk result (text.new.items ≡ text.old.items ++ never_words) }
{
    push_bytes(text, b"never")
}

fn push_yes(text: &mut Vec<u8>, bound: bool) -> Result<(), Memory>
    ensures { OnOk result (text.new.items ≡ text.old.items ++ yes_text bound) }
{
    if bound {
        push_yes_words(text)
    } else {
        push_no_words(text)
    }
}

fn push_levels(text: &mut Vec<u8>, levels: usize) -> Result<(), Memory>
    ensures { OnOk result (text.new.items ≡ text.old.items ++ levels_text levels) }
{
    push_levels_words(text)?;
    push_number(text, levels as u64)
}

fn push_bound(text: &mut Vec<u8>, bound: bool) -> Result<(), Memory>
    ensures { OnOk result (text.new.items ≡ text.old.items ++ bound_text bound) }
{
    push_bound_words(text)?;
    push_yes(text, bound)?;
    push_bytes(text, b"\n")
}

/// Adds the line of a query: its name, the number of levels of its path in the plan, and whether the bound on the delay holds, that
/// is, whether the query is monotone.
pub fn push_bound_line(
    text: &mut Vec<u8>,
    name: &Name,
    levels: usize,
    bound: bool,
) -> Result<(), Memory>
    ensures { OnOk result (text.new.items ≡ text.old.items ++ bound_line name.now levels bound) }
{
    push_query_words(text)?;
    push_bytes(text, name.as_bytes())?;
    push_levels(text, levels)?;
    push_bound(text, bound)
}

fn push_span(text: &mut Vec<u8>, first: u64, last: u64) -> Result<(), Memory>
    ensures { OnOk result (text.new.items ≡ text.old.items ++ span_text first last) }
{
    push_from_words(text)?;
    push_number(text, first)?;
    push_to_words(text)?;
    push_number(text, last)
}

fn push_window(text: &mut Vec<u8>, printed: Option<u64>) -> Result<(), Memory>
    ensures { OnOk result (text.new.items ≡ text.old.items ++ window_text printed) }
{
    match printed {
        Some(window) => push_number(text, window),
        None => push_never_words(text),
    }
}

fn push_printed(text: &mut Vec<u8>, printed: Option<u64>) -> Result<(), Memory>
    ensures { OnOk result (text.new.items ≡ text.old.items ++ printed_text printed) }
{
    push_printed_words(text)?;
    push_window(text, printed)?;
    push_bytes(text, b"\n")
}

/// Adds the line of a stay: an address of this column, its first and last window, and the one in which it was printed; `None` is
/// `never`.
pub fn push_stay_line(
    text: &mut Vec<u8>,
    column: &Column,
    address: u128,
    first: u64,
    last: u64,
    printed: Option<u64>,
) -> Result<(), Memory>
    ensures { OnOk result (text.new.items ≡ text.old.items ++ stay_line column.now address first last printed) }
{
    push_value(text, column, address)?;
    push_span(text, first, last)?;
    push_printed(text, printed)
}
