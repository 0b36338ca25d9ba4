//! The canonical text of a cost, prices and what they show.
ghost use Rattle.std.specs.Prelude.{◌≡◌, ℕ, ◌++◌, codes, IfOk, OnOk};
ghost use Rattle.std.specs.Fmt.{decimal};
ghost use Rattle.sn_text.specs.Cutting.{tokens_of};
ghost use Rattle.sn_prices_text.specs.PricesTexts.{StandsFor, IsParsed};
ghost use Rattle.sn_prices_text.specs.PricesPrinting.{span_text, mix_text, worth_text, limit_text, limits_text, shown_text};

use sn_base::bytes::push_bytes;
use sn_base::memory::Memory;
use sn_base::seq::Seq;
use sn_prices_grammar::prices::{Limit, MetaLimit, Mix, Shown, StageLimit};
use std::alloc::Global;

/// Writes a text and then a number.
fn put_number(alloc: Global, out: &mut Vec<u8>, text: &[u8], number: u64) -> Result<(), Memory>
    ensures { OnOk result (out.new.items ≡ out.old.items ++ text.now ++ decimal number) }
{
    push_bytes(out, text)?;
    let Ok(digits) = number.to_string(alloc) else {
        return Err(Memory);
    };
    push_bytes(out, digits.as_bytes())
}

/// Begins the line of a limit of stages.
fn put_span(alloc: Global, out: &mut Vec<u8>, first: u32, last: u32) -> Result<(), Memory>
    ensures { OnOk result (out.new.items ≡ out.old.items ++ span_text first last) }
{
    put_number(alloc, out, b"limit stages ", u64::from(first))?;
    put_number(alloc, out, b", ", u64::from(last))
}

/// Writes a mix, if there is one.
fn put_mix(alloc: Global, out: &mut Vec<u8>, mix: Option<Mix>) -> Result<(), Memory>
    ensures { OnOk result (out.new.items ≡ out.old.items ++ mix_text mix) }
{
    match mix {
        None => Ok(()),
        Some(mix) => {
            put_number(alloc, out, b" bits ", u64::from(mix.times))?;
            put_number(alloc, out, b" plus ", u64::from(mix.plus))
        }
    }
}

/// Writes a divisor and a price, and ends the line.
fn put_worth(alloc: Global, out: &mut Vec<u8>, divisor: u32, price: u32) -> Result<(), Memory>
    ensures { OnOk result (out.new.items ≡ out.old.items ++ worth_text divisor price) }
{
    put_number(alloc, out, b" divisor ", u64::from(divisor))?;
    put_number(alloc, out, b" price ", u64::from(price))?;
    push_bytes(out, b";\n")
}

fn put_limit(alloc: Global, out: &mut Vec<u8>, limit: Limit) -> Result<(), Memory>
    ensures { OnOk result (out.new.items ≡ out.old.items ++ limit_text limit) }
{
    match limit {
        Limit::Stages(limit) => {
            put_span(alloc, out, limit.first, limit.last)?;
            put_mix(alloc, out, limit.mix)?;
            put_worth(alloc, out, limit.divisor, limit.price)
        }
        Limit::Meta(limit) => {
            push_bytes(out, b"limit meta")?;
            put_worth(alloc, out, limit.divisor, limit.price)
        }
    }
}

fn put_limits(alloc: Global, out: &mut Vec<u8>, limits: &[Limit]) -> Result<(), Memory>
    ensures { OnOk result (out.new.items ≡ out.old.items ++ limits_text limits.now) }
{
    for limit in limits {
        put_limit(alloc, out, *limit)?;
    }
    Ok(())
}

/// The lines after a plan: its cost, the prices, a line for each limit, what they show, and `done`.
///
/// # Errors
/// `Memory` where memory runs out.
#[tactic(auto, using(crate::proofs::Rewritten::stands_again))]
pub fn print(alloc: Global, shown: &Shown) -> Result<Seq<u8>, Memory>
    ensures text { IfOk result (λ text. text ≡ shown_text shown.now) }
    // Read again, the text of what `parse` can give stands for the same.
    ensures again { IsParsed shown.now → IfOk result (λ text. StandsFor (tokens_of text) shown.now) }
{
    let mut out = Vec::new(alloc);
    put_number(alloc, &mut out, b"cost ", shown.cost)?;
    put_number(
        alloc,
        &mut out,
        b";\nprices ",
        u64::from(shown.prices.scale),
    )?;
    push_bytes(&mut out, b";\n")?;
    put_limits(alloc, &mut out, shown.prices.limits.as_slice())?;
    put_number(alloc, &mut out, b"least ", shown.least)?;
    push_bytes(&mut out, b";\ndone\n")?;
    Ok(Seq::from_vec(out))
}
