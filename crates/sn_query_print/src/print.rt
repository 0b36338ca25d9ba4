//! The whole text.
ghost use Rattle.std.specs.Prelude.{◌≡◌, OnOk, IfOk};
ghost use Rattle.sn_query_grammar.specs.Grammar.{file_rule};
ghost use Rattle.sn_query_print.specs.Again.{IsParsed, StandsFor};
ghost use Rattle.sn_query_print.specs.Layout.{layout};
ghost use Rattle.sn_query_print.specs.Printing.{state, puts};

use crate::printer::Printer;
use crate::queries::put_queries;
use sn_base::memory::Memory;
use sn_base::seq::Seq;
use sn_query_grammar::ast::QueryFile;
use std::alloc::Global;

#[tactic(auto, unfolding(sn_query_grammar::specs::Grammar::file_rule))]
fn put_file(alloc: Global, file: &QueryFile, out: &mut Printer) -> Result<(), Memory>
    ensures { OnOk result (state out.new ≡ puts (state out.old) (file_rule.spell file.now)) }
{
    out.word(b"window")?;
    out.number(alloc, file.window_us)?;
    put_queries(alloc, file.queries.as_slice(), out)?;
    out.end()?;
    Ok(())
}

/// The canonical text of a file that `parse` can give.
pub fn print(alloc: Global, file: &QueryFile) -> Result<Seq<u8>, Memory>
    requires { IsParsed file.now }
    // The tokens that the grammar gives the file, each with the blanks that belong before it.
    ensures text { IfOk result (λ text. text ≡ layout (file_rule.spell file.now)) }
    // Read again, it is the same file but for the lines.
    ensures again { IfOk result (λ text. StandsFor text file.now) }
{
    let mut out = Printer::new(alloc);
    put_file(alloc, file, &mut out)?;
    Ok(Seq::from_vec(out.into_text()))
}
