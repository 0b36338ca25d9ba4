//! The canonical text of a plan.
ghost use Rattle.std.specs.Prelude.{◌≡◌, ℕ, List, ◌∷◌, ◌++◌, codes, IfOk, OnOk};
ghost use Rattle.std.specs.Fmt.{decimal};
ghost use Rattle.sn_plan.specs.Texts.{IsParsed, StandsAgain};
ghost use Rattle.sn_plan.specs.Printing.{texts, next_text, list_text, sizes_text, piece_text, entry_text, plan_text};

use crate::plan::{Entry, Piece, Plan};
use sn_base::bytes::push_bytes;
use sn_base::memory::Memory;
use sn_base::seq::Seq;
use std::alloc::Global;

/// Writes a text and then a number.
fn put_number(alloc: Global, out: &mut Vec<u8>, text: &[u8], number: u32) -> Result<(), Memory>
    ensures { OnOk result (out.new.items ≡ out.old.items ++ text.now ++ decimal number) }
{
    push_bytes(out, text)?;
    let Ok(digits) = number.to_string(alloc) else {
        return Err(Memory);
    };
    push_bytes(out, digits.as_bytes())
}

fn put_more(alloc: Global, out: &mut Vec<u8>, numbers: &[u32]) -> Result<(), Memory>
    ensures { OnOk result (out.new.items ≡ out.old.items ++ texts next_text numbers.now) }
{
    for number in numbers {
        put_number(alloc, out, b", ", *number)?;
    }
    Ok(())
}

/// Writes a text and then numbers with commas between them.
fn put_list(alloc: Global, out: &mut Vec<u8>, text: &[u8], numbers: &[u32]) -> Result<(), Memory>
    ensures { OnOk result (out.new.items ≡ out.old.items ++ text.now ++ list_text numbers.now) }
{
    match numbers {
        [] => push_bytes(out, text),
        [first, rest @ ..] => {
            put_number(alloc, out, text, *first)?;
            put_more(alloc, out, rest)
        }
    }
}

fn put_sizes(alloc: Global, out: &mut Vec<u8>, slots: &[u32], stages: &[u32]) -> Result<(), Memory>
    ensures { OnOk result (out.new.items ≡ out.old.items ++ sizes_text slots.now stages.now) }
{
    match slots {
        [] => Ok(()),
        [_, ..] => {
            put_list(alloc, out, b" slots ", slots)?;
            put_list(alloc, out, b" stages ", stages)
        }
    }
}

fn put_piece(alloc: Global, out: &mut Vec<u8>, piece: &Piece) -> Result<(), Memory>
    ensures { OnOk result (out.new.items ≡ out.old.items ++ piece_text piece.now) }
{
    put_number(alloc, out, b"piece ", piece.level)?;
    put_number(alloc, out, b" ", piece.branch)?;
    put_number(alloc, out, b" cut ", piece.cut)?;
    put_sizes(alloc, out, piece.slots.as_slice(), piece.stages.as_slice())?;
    push_bytes(out, b";\n")
}

fn put_pieces(alloc: Global, out: &mut Vec<u8>, pieces: &[Piece]) -> Result<(), Memory>
    ensures { OnOk result (out.new.items ≡ out.old.items ++ texts piece_text pieces.now) }
{
    for piece in pieces {
        put_piece(alloc, out, piece)?;
    }
    Ok(())
}

fn put_entry(alloc: Global, out: &mut Vec<u8>, entry: &Entry) -> Result<(), Memory>
    ensures { OnOk result (out.new.items ≡ out.old.items ++ entry_text entry.now) }
{
    push_bytes(out, b"query ")?;
    push_bytes(out, entry.name.as_bytes())?;
    put_list(alloc, out, b" path ", entry.levels.as_slice())?;
    push_bytes(out, b";\n")?;
    put_pieces(alloc, out, entry.pieces.as_slice())
}

fn put_entries(alloc: Global, out: &mut Vec<u8>, entries: &[Entry]) -> Result<(), Memory>
    ensures { OnOk result (out.new.items ≡ out.old.items ++ texts entry_text entries.now) }
{
    for entry in entries {
        put_entry(alloc, out, entry)?;
    }
    Ok(())
}

/// The canonical text of a plan: `plan`, and a line for each entry and each piece.
///
/// # Errors
/// `Memory` where memory runs out.
#[tactic(auto, using(crate::proofs::Rewritten::stands_again))]
pub fn print(alloc: Global, plan: &Plan) -> Result<Seq<u8>, Memory>
    ensures text { IfOk result (λ text. text ≡ plan_text plan.now) }
    // Read again, the text of a plan that `parse` can give is the same plan.
    ensures again { IsParsed plan.now → IfOk result (λ text. StandsAgain text plan.now) }
{
    let mut out = Vec::new(alloc);
    push_bytes(&mut out, b"plan\n")?;
    put_entries(alloc, &mut out, plan.entries.as_slice())?;
    Ok(Seq::from_vec(out))
}
