//! The limits of a text of prices, and all that stands around them.
ghost use Rattle.std.specs.Prelude.{◌≡◌, ◌≤◌, codes, IfOk, max};
ghost use Rattle.sn_text_rules.specs.declared.Flaw.TheVariants.{Expected};
ghost use Rattle.sn_text_rules.specs.Rules.{kept};
ghost use Rattle.sn_text_rules.specs.Words.{is_word, full, number_in};
ghost use Rattle.sn_text.specs.Lexing.{left};
ghost use Rattle.sn_text.specs.Reading.{Reads, ReadsAll};
ghost use Rattle.sn_prices_grammar.specs.PricesGrammar.{count_rule, some_rule, total_rule, mix_rule, maybe_mix_rule, last_rule, span_rule, worth_rule, stages_rule, meta_rule, kind_rule, limit_rule, limits_rule, least_rule, shown_rule};
ghost use Rattle.sn_prices_grammar.proofs.Goods.{limits_alike};

use sn_base::seq::Seq;
use sn_prices_grammar::prices::{Limit, MetaLimit, Mix, Prices, Shown, StageLimit};
use sn_text::list::{Items, further};
use sn_text::place::Lexer;
use sn_text::stop::Stop;
use sn_text::words::{end, next_is_word, number, symbol, word};
use sn_text_rules::Flaw;
use sn_text_rules::symbols::{COMMA, SEMICOLON};
use std::alloc::Global;

/// A number of 32 bits from `low` to `high`.
fn small_number<'a>(at: Lexer<'a>, low: u32, high: u32) -> Result<(u32, Lexer<'a>), Stop<'a>>
    ensures { Reads result ((number_in low high).read kept (left at.entry)) }
{
    let (number, rest) = number(at, u64::from(low), u64::from(high))?;
    Ok((number as u32, rest))
}

/// A number of 32 bits that may be 0.
fn count<'a>(at: Lexer<'a>) -> Result<(u32, Lexer<'a>), Stop<'a>>
    ensures { Reads result (count_rule.read kept (left at.entry)) }
{
    small_number(at, 0, u32::MAX)
}

/// A number of 64 bits and the sign after it.
fn total<'a>(at: Lexer<'a>) -> Result<(u64, Lexer<'a>), Stop<'a>>
    ensures { Reads result (total_rule.read kept (left at.entry)) }
{
    let (number, rest) = number(at, 0, u64::MAX)?;
    let rest = symbol(rest, SEMICOLON)?;
    Ok((number, rest))
}

#[tactic(auto, unfolding(sn_prices_grammar::specs::PricesGrammar::mix_rule))]
fn mix<'a>(at: Lexer<'a>) -> Result<(Mix, Lexer<'a>), Stop<'a>>
    ensures { Reads result (mix_rule.read kept (left at.entry)) }
{
    let rest = word(at, b"bits")?;
    let (times, rest) = count(rest)?;
    let rest = word(rest, b"plus")?;
    let (plus, rest) = count(rest)?;
    Ok((Mix { times, plus }, rest))
}

#[tactic(auto, unfolding(sn_prices_grammar::specs::PricesGrammar::maybe_mix_rule), using(sn_text::proofs::Tokens::there, sn_text::proofs::Tokens::not_there))]
fn maybe_mix<'a>(at: Lexer<'a>) -> Result<(Option<Mix>, Lexer<'a>), Stop<'a>>
    ensures { Reads result (maybe_mix_rule.read kept (left at.entry)) }
{
    if !next_is_word(at, b"bits") {
        return Ok((None, at));
    }
    let (mix, rest) = mix(at)?;
    Ok((Some(mix), rest))
}

/// A last stage after its comma, from the first one to 31.
fn last<'a>(at: Lexer<'a>, first: u32) -> Result<(u32, Lexer<'a>), Stop<'a>>
    ensures { Reads result ((last_rule first).read kept (left at.entry)) }
{
    let rest = symbol(at, COMMA)?;
    let (last, rest) = small_number(rest, first, first.max(31))?;
    Ok((last, rest))
}

#[tactic(auto, unfolding(sn_prices_grammar::specs::PricesGrammar::span_rule))]
fn span<'a>(at: Lexer<'a>) -> Result<((u32, u32), Lexer<'a>), Stop<'a>>
    ensures { Reads result (span_rule.read kept (left at.entry)) }
{
    let (first, rest) = small_number(at, 0, 31)?;
    let (last, rest) = last(rest, first)?;
    Ok(((first, last), rest))
}

/// A divisor and a price.
#[tactic(auto, unfolding(sn_prices_grammar::specs::PricesGrammar::worth_rule))]
fn worth<'a>(at: Lexer<'a>) -> Result<((u32, u32), Lexer<'a>), Stop<'a>>
    ensures { Reads result (worth_rule.read kept (left at.entry)) }
{
    let rest = word(at, b"divisor")?;
    let (divisor, rest) = small_number(rest, 1, u32::MAX)?;
    let rest = word(rest, b"price")?;
    let (price, rest) = count(rest)?;
    let rest = symbol(rest, SEMICOLON)?;
    Ok(((divisor, price), rest))
}

#[tactic(auto, unfolding(sn_prices_grammar::specs::PricesGrammar::stages_rule))]
fn stages<'a>(at: Lexer<'a>) -> Result<(StageLimit, Lexer<'a>), Stop<'a>>
    ensures { Reads result (stages_rule.read kept (left at.entry)) }
{
    let rest = word(at, b"stages")?;
    let ((first, last), rest) = span(rest)?;
    let (mix, rest) = maybe_mix(rest)?;
    let ((divisor, price), rest) = worth(rest)?;
    Ok((
        StageLimit {
            first,
            last,
            mix,
            divisor,
            price,
        },
        rest,
    ))
}

#[tactic(auto, unfolding(sn_prices_grammar::specs::PricesGrammar::meta_rule))]
fn meta<'a>(at: Lexer<'a>) -> Result<(MetaLimit, Lexer<'a>), Stop<'a>>
    ensures { Reads result (meta_rule.read kept (left at.entry)) }
{
    let rest = word(at, b"meta")?;
    let ((divisor, price), rest) = worth(rest)?;
    Ok((MetaLimit { divisor, price }, rest))
}

/// A limit after its word.
#[tactic(auto, using(crate::proofs::Picks::kind_cases))]
fn kind<'a>(at: Lexer<'a>) -> Result<(Limit, Lexer<'a>), Stop<'a>>
    ensures { Reads result (kind_rule.read kept (left at.entry)) }
{
    if next_is_word(at, b"stages") {
        let (limit, rest) = stages(at)?;
        return Ok((Limit::Stages(limit), rest));
    }
    let (limit, rest) = meta(at)?;
    Ok((Limit::Meta(limit), rest))
}

#[tactic(auto, unfolding(sn_prices_grammar::specs::PricesGrammar::limit_rule))]
fn limit<'a>(at: Lexer<'a>) -> Result<(Limit, Lexer<'a>), Stop<'a>>
    ensures { Reads result (limit_rule.read kept (left at.entry)) }
{
    let rest = word(at, b"limit")?;
    let (limit, rest) = kind(rest)?;
    Ok((limit, rest))
}

/// The limits of a text.
struct LimitItems;

impl Items for LimitItems {
    type Item = Limit;

    ghost goes = { λ items. is_word (codes "limit") };

    ghost shut = { λ items. full 64 Expected };

    ghost rule = { λ items seen. limit_rule };

    ghost laws = { λ items. limits_alike };

    fn begins(&self, at: Lexer<'_>) -> bool {
        next_is_word(at, b"limit")
    }

    fn shut_by(&self, seen: &[Limit]) -> Option<Flaw> {
        if 64 <= seen.len() {
            Some(Flaw::Expected)
        } else {
            None
        }
    }

    fn item<'a>(
        &self,
        _alloc: Global,
        _seen: &[Limit],
        at: Lexer<'a>,
    ) -> Result<(Limit, Lexer<'a>), Stop<'a>> {
        limit(at)
    }
}

#[tactic(auto, unfolding(sn_prices_grammar::specs::PricesGrammar::limits_rule))]
fn limits<'a>(alloc: Global, at: Lexer<'a>) -> Result<(Seq<Limit>, Lexer<'a>), Stop<'a>>
    ensures { Reads result (limits_rule.read kept (left at.entry)) }
{
    further(alloc, &LimitItems, Seq::new(alloc), at)
}

/// What the prices show, and nothing after it.
#[tactic(auto, unfolding(sn_prices_grammar::specs::PricesGrammar::least_rule))]
fn least<'a>(at: Lexer<'a>) -> Result<u64, Stop<'a>>
    ensures { ReadsAll result (least_rule.read kept (left at.entry)) }
{
    let rest = word(at, b"least")?;
    let (least, rest) = total(rest)?;
    let rest = word(rest, b"done")?;
    end(rest)?;
    Ok(least)
}

/// The cost, the prices and what they show, and nothing after them.
#[tactic(auto, unfolding(sn_prices_grammar::specs::PricesGrammar::shown_rule))]
pub(crate) fn read<'a>(alloc: Global, at: Lexer<'a>) -> Result<Shown, Stop<'a>>
    ensures { ReadsAll result (shown_rule.read kept (left at.entry)) }
{
    let rest = word(at, b"cost")?;
    let (cost, rest) = total(rest)?;
    let rest = word(rest, b"prices")?;
    let (scale, rest) = small_number(rest, 1, u32::MAX)?;
    let rest = symbol(rest, SEMICOLON)?;
    let (limits, rest) = limits(alloc, rest)?;
    let least = least(rest)?;
    Ok(Shown {
        cost,
        prices: Prices { scale, limits },
        least,
    })
}
