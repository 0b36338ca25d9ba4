//! The cost and the prices after a plan, in one text.
ghost use Rattle.std.specs.Prelude.{◌≡◌, ◌≤◌, ◌^◌, length, IfOk};
ghost use Rattle.sn_command.specs.Runs.{Answers};
ghost use Rattle.sn_command_prices.specs.After.{PricesAfter, prices_text_refusal};

use sn_command::fault::{Fault, TextFault, TextKind};
use sn_command::refusal::Refusal;
use sn_prices_grammar::prices::Shown;
use sn_prices_text::fault::PricesFault;
use sn_prices_text::parse;
use std::alloc::Global;

fn prices_refusal(fault: PricesFault) -> Refusal
    ensures { result ≡ prices_text_refusal fault }
{
    let (kind, line) = match fault {
        PricesFault::Lex { line } => (TextKind::Lex, line),
        PricesFault::Expected { line } => (TextKind::Expected, line),
        PricesFault::Memory => return Refusal::Memory,
    };
    Refusal::Refused(Fault::Tree(TextFault { kind, line }))
}

/// The cost, the prices and what they show, of a text from this byte on. Lines are counted from the front of the text. The text has at
/// most 2^30 bytes.
///
/// # Errors
/// Out of memory, or the first fault of the text.
pub fn judge_prices(alloc: Global, text: &[u8], from: u64) -> Result<Shown, Refusal>
    requires { length text.now ≤ 2 ^ 30 }
    ensures judged { Answers (PricesAfter text.now from) result }
    ensures few { IfOk result (λ x. length x.prices.limits ≤ 64) }
{
    match parse(alloc, text, from) {
        Ok(shown) => Ok(shown),
        Err(fault) => Err(prices_refusal(fault)),
    }
}
