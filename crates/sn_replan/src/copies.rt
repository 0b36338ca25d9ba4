//! Copies of answers.
ghost use Rattle.std.specs.Prelude.{◌≡◌, IfOk};

use sn_base::memory::Memory;
use sn_base::seq::Seq;
use sn_types::answers::{Answers, Part};
use std::alloc::Global;

fn copy_part(alloc: Global, part: &Part) -> Result<Part, Memory>
    ensures { IfOk result (λ copied. copied ≡ part.now) }
{
    let rows = part.rows.copy(alloc)?;
    Ok(Part {
        query: part.query,
        level: part.level,
        rows,
    })
}

/// Answers equal to these.
pub(crate) fn copy_answers(alloc: Global, answers: &Answers) -> Result<Answers, Memory>
    ensures { IfOk result (λ copied. copied ≡ answers.now) }
{
    let mut parts = Seq::new(alloc);
    for part in answers.parts.as_slice() {
        parts.push(copy_part(alloc, part)?)?;
    }
    Ok(Answers {
        window: answers.window,
        emitted: answers.emitted,
        parts,
    })
}
