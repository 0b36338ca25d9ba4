//! Lists of numbers.
ghost use Rattle.std.specs.Prelude.{◌≡◌, ◌≤◌, length, nat_le, Some, None, IfOk, if◌then◌else◌};
ghost use Rattle.sn_text_rules.specs.declared.symbols.TheConstants.{COMMA};
ghost use Rattle.sn_text_rules.specs.declared.Flaw.TheVariants.{Expected};
ghost use Rattle.sn_text_rules.specs.Rules.{kept};
ghost use Rattle.sn_text_rules.specs.Words.{is_symbol, sign, number_in, full, ◌▸◌};
ghost use Rattle.sn_text.specs.Lexing.{left};
ghost use Rattle.sn_text.specs.Reading.{Reads};
ghost use Rattle.sn_plan_grammar.specs.Grammar.{numbers};
ghost use Rattle.sn_plan_grammar.proofs.Goods.{numbers_alike};

use crate::short::Short;
use sn_base::seq::Seq;
use sn_text::list::{Items, further};
use sn_text::place::Lexer;
use sn_text::stop::Stop;
use sn_text::words::{next_is_symbol, number, symbol};
use sn_text_rules::Flaw;
use sn_text_rules::symbols::COMMA;
use std::alloc::Global;

pub(crate) fn small_number<'a>(
    at: Lexer<'a>,
    low: u32,
    high: u32,
) -> Result<(u32, Lexer<'a>), Stop<'a>>
    ensures value { Reads result ((number_in low high).read kept (left at.entry)) }
    ensures range { IfOk result (λ x. (low ≤ x.0) × (x.0 ≤ high)) }
{
    let (number, rest) = number(at, u64::from(low), u64::from(high))?;
    Ok((number as u32, rest))
}

fn next_number<'a>(at: Lexer<'a>, low: u32, high: u32) -> Result<(u32, Lexer<'a>), Stop<'a>>
    ensures { Reads result ((sign COMMA ▸ number_in low high).read kept (left at.entry)) }
{
    let rest = symbol(at, COMMA)?;
    let (number, rest) = small_number(rest, low, high)?;
    Ok((number, rest))
}

/// Why no further item may follow this many.
pub(crate) fn full_at(count: usize, limit: usize) -> Option<Flaw>
    ensures { result ≡ if nat_le limit count then Some Expected else None }
{
    if limit <= count {
        Some(Flaw::Expected)
    } else {
        None
    }
}

/// The numbers of a list after its first one: at most this many in all, each in a range.
#[derive(Clone, Copy)]
struct NumberItems {
    limit: usize,
    low: u32,
    high: u32,
    ghost range: { low ≤ high },
}

impl Items for NumberItems {
    type Item = u32;

    ghost goes = { λ list. is_symbol COMMA };

    ghost shut = { λ list. full list.limit Expected };

    ghost rule = { λ list seen. sign COMMA ▸ number_in list.low list.high };

    ghost laws = { λ list. numbers_alike list.limit list.low list.high list.range };

    fn begins(&self, at: Lexer<'_>) -> bool {
        next_is_symbol(at, COMMA)
    }

    fn shut_by(&self, seen: &[u32]) -> Option<Flaw> {
        full_at(seen.len(), self.limit)
    }

    fn item<'a>(
        &self,
        _alloc: Global,
        _seen: &[u32],
        at: Lexer<'a>,
    ) -> Result<(u32, Lexer<'a>), Stop<'a>> {
        next_number(at, self.low, self.high)
    }
}

#[tactic(auto, unfolding(sn_plan_grammar::specs::Grammar::numbers))]
fn all<'a>(
    alloc: Global,
    list: &NumberItems,
    at: Lexer<'a>,
) -> Result<(Seq<u32>, Lexer<'a>), Stop<'a>>
    ensures { Reads result ((numbers list.now.limit list.now.low list.now.high).read kept (left at.entry)) }
{
    let (first, rest) = small_number(at, list.low, list.high)?;
    let mut numbers = Seq::new(alloc);
    numbers.push(first)?;
    further(alloc, list, numbers, rest)
}

/// At most this many numbers with commas between them, each from `low` to `high`, and the place after them.
#[tactic(auto, using(sn_plan_grammar::proofs::Counts::few_read))]
pub(crate) fn numbers<'a>(
    alloc: Global,
    limit: usize,
    low: u32,
    high: u32,
    at: Lexer<'a>,
) -> Result<(Short, Lexer<'a>), Stop<'a>>
    requires some { 1 ≤ limit }
    requires few { limit ≤ 8 }
    requires range { low ≤ high }
    ensures { Reads result ((numbers limit low high).read kept (left at.entry)) }
{
    let list = NumberItems { limit, low, high };
    let (numbers, rest) = all(alloc, &list, at)?;
    match Short::new(alloc, numbers.as_slice()) {
        Some(short) => Ok((short, rest)),
        None => unreachable!(),
    }
}
