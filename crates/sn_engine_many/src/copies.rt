//! Answers, copied.
ghost use Rattle.std.specs.Prelude.{◌≡◌, IfOk};

use sn_base::memory::Memory;
use sn_base::seq::Seq;
use sn_types::answers::{Answers, Part};
use std::alloc::Global;

fn copy_part(alloc: Global, part: &Part) -> Result<Part, Memory>
    ensures { IfOk result (λ copied. copied ≡ part.now) }
{
    Ok(Part {
        query: part.query,
        level: part.level,
        rows: part.rows.copy(alloc)?,
    })
}

fn copy_parts(alloc: Global, parts: &[Part]) -> Result<Seq<Part>, Memory>
    ensures { IfOk result (λ copied. copied ≡ parts.now) }
{
    let mut copied = Seq::new(alloc);
    for part in parts {
        copied.push(copy_part(alloc, part)?)?;
    }
    Ok(copied)
}

pub(crate) fn copy_answers(alloc: Global, answers: &Answers) -> Result<Answers, Memory>
    ensures { IfOk result (λ copied. copied ≡ answers.now) }
{
    Ok(Answers {
        window: answers.window,
        emitted: answers.emitted,
        parts: copy_parts(alloc, answers.parts.as_slice())?,
    })
}
