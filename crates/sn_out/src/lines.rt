//! The lines after the blocks.
ghost use Rattle.std.specs.Prelude.{◌≡◌, [], ◌∷◌, ◌++◌, OnOk, IfOk};
ghost use Rattle.std.specs.Fmt.{decimal};
ghost use Rattle.sn_out.specs.Text.{total_words, cut_words, bad_words, capture_words, total_line, damage_line, damage_line_of};

use crate::pieces::{push_emitted, push_number};
use sn_base::bytes::push_bytes;
use sn_base::memory::Memory;
use sn_base::seq::Seq;
use sn_pcap::packet::Ending;
use std::alloc::Global;

#[tactic(auto, unfolding(crate::specs::Text::total_words))]
fn push_total_words(text: &mut Vec<u8>) -> Result<(), Memory>
    ensures { OnOk result (text.new.items ≡ text.old.items ++ total_words) }
{
    push_bytes(text, b"total windows ")
}

#[tactic(auto, unfolding(crate::specs::Text::cut_words))]
fn push_cut_words(text: &mut Vec<u8>) -> Result<(), Memory>
    ensures { OnOk result (text.new.items ≡ text.old.items ++ cut_words) }
{
    push_bytes(text, b"capture cut at byte ")
}

#[tactic(auto, unfolding(crate::specs::Text::bad_words))]
fn push_bad_words(text: &mut Vec<u8>) -> Result<(), Memory>
    ensures { OnOk result (text.new.items ≡ text.old.items ++ bad_words) }
{
    push_bytes(text, b"capture bad at byte ")
}

/// The last line: the number of windows, and that of all emitted tuples where they are counted.
pub fn total(alloc: Global, windows: u64, emitted: Option<u64>) -> Result<Seq<u8>, Memory>
    ensures { IfOk result (λ text. text ≡ total_line windows emitted) }
{
    let mut text = Vec::new(alloc);
    push_total_words(&mut text)?;
    push_number(&mut text, windows)?;
    push_emitted(&mut text, emitted)?;
    push_bytes(&mut text, b"\n")?;
    Ok(Seq::from_vec(text))
}

/// The line that says at which byte a damaged capture's records end. Nothing for a capture without damage.
pub fn damage(alloc: Global, ending: Ending) -> Result<Seq<u8>, Memory>
    ensures { IfOk result (λ text. text ≡ damage_line ending) }
{
    let mut text = Vec::new(alloc);
    let at = match ending {
        Ending::Clean => return Ok(Seq::from_vec(text)),
        Ending::Cut(at) => {
            push_cut_words(&mut text)?;
            at
        }
        Ending::Bad(at) => {
            push_bad_words(&mut text)?;
            at
        }
    };
    push_number(&mut text, at)?;
    push_bytes(&mut text, b"\n")?;
    Ok(Seq::from_vec(text))
}

#[tactic(auto, unfolding(crate::specs::Text::capture_words))]
fn push_capture_words(text: &mut Vec<u8>) -> Result<(), Memory>
    ensures { OnOk result (text.new.items ≡ text.old.items ++ capture_words) }
{
    push_bytes(text, b"capture ")
}

/// The line of a capture, with words between its number and the byte.
fn file_line(alloc: Global, file: u64, words: &[u8], at: u64) -> Result<Seq<u8>, Memory>
    ensures { IfOk result (λ text. text ≡ capture_words ++ decimal file ++ words.now ++ decimal at ++ 10 ∷ []) }
{
    let mut text = Vec::new(alloc);
    push_capture_words(&mut text)?;
    push_number(&mut text, file)?;
    push_bytes(&mut text, words)?;
    push_number(&mut text, at)?;
    push_bytes(&mut text, b"\n")?;
    Ok(Seq::from_vec(text))
}

/// The line that says at which byte the records of one of several captures end, where it is damaged. The captures are counted
/// from 1. Nothing for a capture without damage.
#[tactic(auto, unfolding(crate::specs::Text::cut_after_words, crate::specs::Text::bad_after_words))]
pub fn damage_of(alloc: Global, file: u64, ending: Ending) -> Result<Seq<u8>, Memory>
    ensures { IfOk result (λ text. text ≡ damage_line_of file ending) }
{
    match ending {
        Ending::Clean => Ok(Seq::new(alloc)),
        Ending::Cut(at) => file_line(alloc, file, b" cut at byte ", at),
        Ending::Bad(at) => file_line(alloc, file, b" bad at byte ", at),
    }
}
