//! Keys and folds.
ghost use Rattle.std.specs.Prelude.{◌≡◌, List};
ghost use Rattle.sn_text_rules.specs.declared.Flaw.{Flaw};
ghost use Rattle.sn_text_rules.specs.Rules.{kept};
ghost use Rattle.sn_text.specs.Lexing.{left, seen};
ghost use Rattle.sn_text.specs.Reading.{Reads};
ghost use Rattle.sn_query_grammar.specs.Names.{name_not, past_name};
ghost use Rattle.sn_query_grammar.specs.Grammar.{keys_rule, reduce_rule};
ghost use Rattle.sn_query_grammar.proofs.Queries.{keys_listed};
ghost use Rattle.sn_query.specs.Parts.{column_rule, fold_read};

use crate::words::{fold_word, is_full_at, new_name, past_name_of};
use sn_base::name::Name;
use sn_base::seq::Seq;
use sn_query_grammar::ast::{FoldWord, Reduce};
use sn_text::commas::{Commas, list};
use sn_text::place::{Lexer, Piece};
use sn_text::stop::Stop;
use sn_text::words::{next_is_word, number, symbol, word};
use sn_text_rules::Flaw;
use sn_text_rules::symbols::{CLOSE, COLON, OPEN};
use std::alloc::Global;

/// The keys of a fold or a join.
struct KeyItems;

impl Commas for KeyItems {
    type Item = Name;

    ghost limit = { 8 };

    ghost begun = { past_name };

    ghost rule = { λ taken. name_not taken };

    ghost laws = { keys_listed };

    fn is_full(count: usize) -> bool {
        is_full_at(count, 8)
    }

    fn past(piece: Piece<'_>) -> Flaw {
        past_name_of(piece)
    }

    fn item<'a>(
        _alloc: Global,
        taken: &[Name],
        at: Lexer<'a>,
    ) -> Result<(Name, Lexer<'a>), Stop<'a>> {
        new_name(at, taken)
    }
}

/// Keys, and the place after them.
#[tactic(auto, unfolding(sn_query_grammar::specs::Grammar::keys_rule))]
pub(crate) fn keys<'a>(alloc: Global, at: Lexer<'a>) -> Result<(Seq<Name>, Lexer<'a>), Stop<'a>>
    ensures { Reads result (keys_rule.read kept (left at.entry)) }
{
    list::<KeyItems>(alloc, at)
}

/// The column that is folded, in its brackets.
fn column<'a>(at: Lexer<'a>, keys: &[Name]) -> Result<(Name, Lexer<'a>), Stop<'a>>
    ensures { Reads result ((column_rule keys.now).read kept (left at.entry)) }
{
    let rest = symbol(at, OPEN)?;
    let (value, rest) = match new_name(rest, keys) {
        Ok(found) => found,
        Err(stop) => return Err(stop),
    };
    let rest = symbol(rest, CLOSE)?;
    Ok((value, rest))
}

#[tactic(auto, using(crate::proofs::FoldParts::fold_cases))]
fn fold<'a>(keys: Seq<Name>, at: Lexer<'a>) -> Result<(Reduce, Lexer<'a>), Stop<'a>>
    ensures { Reads result (fold_read keys (left at.entry)) }
{
    if next_is_word(at, b"sum") {
        let rest = word(at, b"sum")?;
        let (value, rest) = match column(rest, keys.as_slice()) {
            Ok(found) => found,
            Err(stop) => return Err(stop),
        };
        let rest = word(rest, b"width")?;
        let (width, rest) = number(rest, 1, 64)?;
        let width = width as u32;
        let fold = FoldWord::Sum;
        return Ok((
            Reduce {
                keys,
                fold,
                value,
                width,
            },
            rest,
        ));
    }
    let (fold, rest) = fold_word(at)?;
    let (value, rest) = match column(rest, keys.as_slice()) {
        Ok(found) => found,
        Err(stop) => return Err(stop),
    };
    Ok((
        Reduce {
            keys,
            fold,
            value,
            width: 0,
        },
        rest,
    ))
}

/// A fold over the rows with equal keys, and the place after it.
#[tactic(auto, using(crate::proofs::FoldParts::reduce_cases))]
pub(crate) fn reduce<'a>(alloc: Global, at: Lexer<'a>) -> Result<(Reduce, Lexer<'a>), Stop<'a>>
    ensures { Reads result (reduce_rule.read kept (left at.entry)) }
{
    let rest = word(at, b"reduce")?;
    let (keys, rest) = match keys(alloc, rest) {
        Ok(found) => found,
        Err(stop) => return Err(stop),
    };
    let rest = symbol(rest, COLON)?;
    fold(keys, rest)
}
