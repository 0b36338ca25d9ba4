//! Texts with lines before them.
ghost use Rattle.std.specs.Prelude.{◌≡◌, ◌++◌, IfOk, true};
ghost use Rattle.std.specs.List.{AllByRecursion};
ghost use Rattle.sn_out.specs.Text.{IsPartOf, block_text};

use sn_base::bytes::push_bytes;
use sn_base::memory::Memory;
use sn_base::seq::Seq;
use sn_out::block::block;
use sn_types::answers::Answers;
use sn_types::typed::Typed;
use std::alloc::Global;

/// One text after another.
fn joined(front: Vec<u8>, following: &[u8]) -> Result<Seq<u8>, Memory>
    ensures { IfOk result (λ text. text ≡ front.items ++ following.now) }
{
    let mut text = front;
    push_bytes(&mut text, following)?;
    Ok(Seq::from_vec(text))
}

/// A text after a copy of lines.
pub(crate) fn after_lines(alloc: Global, lines: &[u8], text: &[u8]) -> Result<Seq<u8>, Memory>
    ensures { IfOk result (λ whole. whole ≡ lines.now ++ text.now) }
{
    let front = Seq::from_slice(alloc, lines)?;
    joined(front.into_vec(), text)
}

/// The block of a window after its lines.
pub(crate) fn with_block(
    alloc: Global,
    t: &Typed,
    lines: Vec<u8>,
    answers: &Answers,
) -> Result<Seq<u8>, Memory>
    requires { AllByRecursion (IsPartOf t.now.queries) answers.now.parts }
    ensures { IfOk result (λ text. text ≡ lines.items ++ block_text t.now.queries answers.now true) }
{
    let block = block(alloc, t, answers, true)?;
    joined(lines, block.as_slice())
}
