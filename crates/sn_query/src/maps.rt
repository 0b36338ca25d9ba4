//! Maps and their columns, before a join and after it. Each function reads a part of the text by the production above it, and
//! gives what it has read with the place after it. Where that holds a name, a `match` hands a stop on: the borrow rules of
//! contracts have no form for the question mark there.
ghost use Rattle.std.specs.Prelude.{◌≡◌, List};
ghost use Rattle.sn_text_rules.specs.declared.Flaw.{Flaw};
ghost use Rattle.sn_text_rules.specs.Rules.{kept};
ghost use Rattle.sn_text.specs.Lexing.{left, seen};
ghost use Rattle.sn_text.specs.Reading.{Reads};
ghost use Rattle.sn_query_grammar.specs.Grammar.{expr_rule, post_expr_rule, past_col, col_names, col_rule, post_col_rule, map_rule, post_map_rule};
ghost use Rattle.sn_query_grammar.proofs.Goods.{col_listed, post_col_listed};
ghost use Rattle.sn_query.specs.Parts.{mask_rule, shift_rule, plus_rule, ratio_rule};

use crate::words::{is_full_at, name, new_col_name, past_col_of};
use sn_base::name::Name;
use sn_base::seq::Seq;
use sn_query_grammar::ast::{Expr, MapCol};
use sn_text::commas::{Commas, list};
use sn_text::place::{Lexer, Piece};
use sn_text::stop::Stop;
use sn_text::words::{next_is_number, next_is_symbol, number, symbol, word};
use sn_text_rules::Flaw;
use sn_text_rules::symbols::{AND, OVER, PLUS, SHIFT, TIMES};
use std::alloc::Global;

/// `"&" NUM`: the bits that are kept of a column.
fn mask<'a>(at: Lexer<'a>) -> Result<(u64, Lexer<'a>), Stop<'a>>
    ensures { Reads result (mask_rule.read kept (left at.entry)) }
{
    let rest = symbol(at, AND)?;
    let (number, rest) = number(rest, 0, u64::MAX)?;
    Ok((number, rest))
}

/// `">>" NUM`: by how many bits a column is shifted.
fn shift<'a>(at: Lexer<'a>) -> Result<(u32, Lexer<'a>), Stop<'a>>
    ensures { Reads result (shift_rule.read kept (left at.entry)) }
{
    let rest = symbol(at, SHIFT)?;
    let (bits, rest) = number(rest, 0, 63)?;
    Ok((bits as u32, rest))
}

/// `"+" NAME`: the column that is added.
fn plus<'a>(at: Lexer<'a>) -> Result<(Name, Lexer<'a>), Stop<'a>>
    ensures { Reads result (plus_rule.read kept (left at.entry)) }
{
    let rest = symbol(at, PLUS)?;
    let (name, rest) = match name(rest) {
        Ok(found) => found,
        Err(stop) => return Err(stop),
    };
    Ok((name, rest))
}

/// `"*" NUM "/" NAME`: the factor, and the column that divides.
fn ratio<'a>(at: Lexer<'a>) -> Result<((u64, Name), Lexer<'a>), Stop<'a>>
    ensures { Reads result (ratio_rule.read kept (left at.entry)) }
{
    let rest = symbol(at, TIMES)?;
    let (factor, rest) = number(rest, 0, u64::MAX)?;
    let rest = symbol(rest, OVER)?;
    let (name, rest) = match name(rest) {
        Ok(found) => found,
        Err(stop) => return Err(stop),
    };
    Ok(((factor, name), rest))
}

/// `NUM | NAME [ "&" NUM | ">>" NUM ]`: what a column holds before a join.
#[tactic(auto, using(crate::proofs::Picks::expr_cases))]
fn expr<'a>(at: Lexer<'a>) -> Result<(Expr, Lexer<'a>), Stop<'a>>
    ensures { Reads result (expr_rule.read kept (left at.entry)) }
{
    if next_is_number(at) {
        let (number, rest) = number(at, 0, u64::MAX)?;
        return Ok((Expr::Const(number), rest));
    }
    let (name, rest) = match name(at) {
        Ok(found) => found,
        Err(stop) => return Err(stop),
    };
    if next_is_symbol(rest, AND) {
        let (mask, after) = mask(rest)?;
        return Ok((Expr::Mask(name, mask), after));
    }
    if next_is_symbol(rest, SHIFT) {
        let (bits, after) = shift(rest)?;
        return Ok((Expr::Shift(name, bits), after));
    }
    Ok((Expr::Copy(name), rest))
}

/// `NUM | NAME [ "&" NUM | ">>" NUM | "+" NAME | "*" NUM "/" NAME ]`: what a column holds after a join.
#[tactic(auto, using(crate::proofs::Picks::post_expr_cases))]
fn post_expr<'a>(at: Lexer<'a>) -> Result<(Expr, Lexer<'a>), Stop<'a>>
    ensures { Reads result (post_expr_rule.read kept (left at.entry)) }
{
    if next_is_number(at) {
        let (number, rest) = number(at, 0, u64::MAX)?;
        return Ok((Expr::Const(number), rest));
    }
    let (name, rest) = match name(at) {
        Ok(found) => found,
        Err(stop) => return Err(stop),
    };
    if next_is_symbol(rest, AND) {
        let (mask, after) = mask(rest)?;
        return Ok((Expr::Mask(name, mask), after));
    }
    if next_is_symbol(rest, SHIFT) {
        let (bits, after) = shift(rest)?;
        return Ok((Expr::Shift(name, bits), after));
    }
    if next_is_symbol(rest, PLUS) {
        let (second, after) = match plus(rest) {
            Ok(found) => found,
            Err(stop) => return Err(stop),
        };
        return Ok((Expr::Sum(name, second), after));
    }
    if next_is_symbol(rest, TIMES) {
        let ((factor, second), after) = match ratio(rest) {
            Ok(found) => found,
            Err(stop) => return Err(stop),
        };
        return Ok((Expr::Ratio(name, factor, second), after));
    }
    Ok((Expr::Copy(name), rest))
}

/// What a column holds before a join, `"as"`, and its name, which none of the taken columns has.
#[tactic(auto, unfolding(sn_query_grammar::specs::Grammar::col_rule))]
fn col<'a>(taken: &[MapCol], at: Lexer<'a>) -> Result<(MapCol, Lexer<'a>), Stop<'a>>
    ensures { Reads result ((col_rule (col_names taken.now)).read kept (left at.entry)) }
{
    let (expr, rest) = match expr(at) {
        Ok(found) => found,
        Err(stop) => return Err(stop),
    };
    let rest = word(rest, b"as")?;
    let (name, rest) = match new_col_name(rest, taken) {
        Ok(found) => found,
        Err(stop) => return Err(stop),
    };
    Ok((MapCol { expr, name }, rest))
}

/// What a column holds after a join, `"as"`, and its name, which none of the taken columns has.
#[tactic(auto, unfolding(sn_query_grammar::specs::Grammar::post_col_rule))]
fn post_col<'a>(taken: &[MapCol], at: Lexer<'a>) -> Result<(MapCol, Lexer<'a>), Stop<'a>>
    ensures { Reads result ((post_col_rule (col_names taken.now)).read kept (left at.entry)) }
{
    let (expr, rest) = match post_expr(at) {
        Ok(found) => found,
        Err(stop) => return Err(stop),
    };
    let rest = word(rest, b"as")?;
    let (name, rest) = match new_col_name(rest, taken) {
        Ok(found) => found,
        Err(stop) => return Err(stop),
    };
    Ok((MapCol { expr, name }, rest))
}

/// The most columns of a map.
const MOST_COLUMNS: usize = 8;

/// The columns of a map before a join.
struct ColItems;

impl Commas for ColItems {
    type Item = MapCol;

    ghost limit = { 8 };

    ghost begun = { past_col };

    ghost rule = { λ taken. col_rule (col_names taken) };

    ghost laws = { col_listed };

    fn is_full(count: usize) -> bool {
        is_full_at(count, MOST_COLUMNS)
    }

    fn past(piece: Piece<'_>) -> Flaw {
        past_col_of(piece)
    }

    fn item<'a>(
        _alloc: Global,
        taken: &[MapCol],
        at: Lexer<'a>,
    ) -> Result<(MapCol, Lexer<'a>), Stop<'a>> {
        col(taken, at)
    }
}

/// The columns of a map after a join.
struct PostColItems;

impl Commas for PostColItems {
    type Item = MapCol;

    ghost limit = { 8 };

    ghost begun = { past_col };

    ghost rule = { λ taken. post_col_rule (col_names taken) };

    ghost laws = { post_col_listed };

    fn is_full(count: usize) -> bool {
        is_full_at(count, MOST_COLUMNS)
    }

    fn past(piece: Piece<'_>) -> Flaw {
        past_col_of(piece)
    }

    fn item<'a>(
        _alloc: Global,
        taken: &[MapCol],
        at: Lexer<'a>,
    ) -> Result<(MapCol, Lexer<'a>), Stop<'a>> {
        post_col(taken, at)
    }
}

/// `"map" col { "," col }`, before a join.
#[tactic(auto, unfolding(sn_query_grammar::specs::Grammar::map_rule))]
pub(crate) fn map<'a>(alloc: Global, at: Lexer<'a>) -> Result<(Seq<MapCol>, Lexer<'a>), Stop<'a>>
    ensures { Reads result (map_rule.read kept (left at.entry)) }
{
    let rest = word(at, b"map")?;
    let (cols, rest) = list::<ColItems>(alloc, rest)?;
    Ok((cols, rest))
}

/// `"map" col { "," col }`, after a join.
#[tactic(auto, unfolding(sn_query_grammar::specs::Grammar::post_map_rule))]
pub(crate) fn post_map<'a>(
    alloc: Global,
    at: Lexer<'a>,
) -> Result<(Seq<MapCol>, Lexer<'a>), Stop<'a>>
    ensures { Reads result (post_map_rule.read kept (left at.entry)) }
{
    let rest = word(at, b"map")?;
    let (cols, rest) = list::<PostColItems>(alloc, rest)?;
    Ok((cols, rest))
}
