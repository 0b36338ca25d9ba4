//! Pieces of a plan text.
ghost use Rattle.std.specs.Prelude.{◌≡◌, [], codes};
ghost use Rattle.sn_text_rules.specs.declared.Flaw.TheVariants.{Expected};
ghost use Rattle.sn_text_rules.specs.Rules.{kept};
ghost use Rattle.sn_text_rules.specs.Words.{is_word, full};
ghost use Rattle.sn_text.specs.Lexing.{left};
ghost use Rattle.sn_text.specs.Reading.{Reads};
ghost use Rattle.sn_plan_grammar.specs.Grammar.{both_rule, sizes_rule, piece_rule, pieces_rule};
ghost use Rattle.sn_plan_grammar.proofs.Goods.{pieces_alike};

use crate::lists::{full_at, numbers, small_number};
use crate::plan::Piece;
use crate::short::Short;
use sn_base::seq::Seq;
use sn_chain::chain::LARGEST_REGISTER;
use sn_text::list::{Items, further};
use sn_text::place::Lexer;
use sn_text::stop::Stop;
use sn_text::words::{next_is_word, symbol, word};
use sn_text_rules::Flaw;
use sn_text_rules::symbols::SEMICOLON;
use std::alloc::Global;

#[tactic(auto, unfolding(sn_plan_grammar::specs::Grammar::both_rule))]
fn both<'a>(alloc: Global, at: Lexer<'a>) -> Result<((Short, Short), Lexer<'a>), Stop<'a>>
    ensures { Reads result (both_rule.read kept (left at.entry)) }
{
    let rest = word(at, b"slots")?;
    let (slots, rest) = numbers(alloc, 2, 1, LARGEST_REGISTER as u32, rest)?;
    let rest = word(rest, b"stages")?;
    let (stages, rest) = numbers(alloc, 8, 0, 31, rest)?;
    Ok(((slots, stages), rest))
}

fn none(alloc: Global) -> Short
    ensures { result ≡ [] }
{
    match Short::new(alloc, &[]) {
        Some(short) => short,
        None => unreachable!(),
    }
}

#[tactic(auto, unfolding(sn_plan_grammar::specs::Grammar::sizes_rule), using(sn_text::proofs::Tokens::there, sn_text::proofs::Tokens::not_there))]
fn sizes<'a>(alloc: Global, at: Lexer<'a>) -> Result<((Short, Short), Lexer<'a>), Stop<'a>>
    ensures { Reads result (sizes_rule.read kept (left at.entry)) }
{
    if !next_is_word(at, b"slots") {
        return Ok(((none(alloc), none(alloc)), at));
    }
    both(alloc, at)
}

#[tactic(auto, unfolding(sn_plan_grammar::specs::Grammar::piece_rule))]
fn piece<'a>(alloc: Global, at: Lexer<'a>) -> Result<(Piece, Lexer<'a>), Stop<'a>>
    ensures { Reads result (piece_rule.read kept (left at.entry)) }
{
    let rest = word(at, b"piece")?;
    let (level, rest) = small_number(rest, 0, 128)?;
    let (branch, rest) = small_number(rest, 0, 1)?;
    let rest = word(rest, b"cut")?;
    let (cut, rest) = small_number(rest, 0, 12)?;
    let ((slots, stages), rest) = sizes(alloc, rest)?;
    let rest = symbol(rest, SEMICOLON)?;
    Ok((
        Piece {
            level,
            branch,
            cut,
            slots,
            stages,
        },
        rest,
    ))
}

/// The pieces of an entry.
struct PieceItems;

impl Items for PieceItems {
    type Item = Piece;

    ghost goes = { λ items. is_word (codes "piece") };

    ghost shut = { λ items. full 8 Expected };

    ghost rule = { λ items seen. piece_rule };

    ghost laws = { λ items. pieces_alike };

    fn begins(&self, at: Lexer<'_>) -> bool {
        next_is_word(at, b"piece")
    }

    fn shut_by(&self, seen: &[Piece]) -> Option<Flaw> {
        full_at(seen.len(), 8)
    }

    fn item<'a>(
        &self,
        alloc: Global,
        _seen: &[Piece],
        at: Lexer<'a>,
    ) -> Result<(Piece, Lexer<'a>), Stop<'a>> {
        piece(alloc, at)
    }
}

/// The pieces of an entry, and the place after them.
#[tactic(auto, unfolding(sn_plan_grammar::specs::Grammar::pieces_rule))]
pub(crate) fn pieces<'a>(alloc: Global, at: Lexer<'a>) -> Result<(Seq<Piece>, Lexer<'a>), Stop<'a>>
    ensures { Reads result (pieces_rule.read kept (left at.entry)) }
{
    further(alloc, &PieceItems, Seq::new(alloc), at)
}
