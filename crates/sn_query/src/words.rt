//! Names, comparisons and folds.
ghost use Rattle.std.specs.Prelude.{◌≡◌, List, [], nat_le};
ghost use Rattle.std.specs.List.{list_any};
ghost use Rattle.sn_text_rules.specs.Rules.{kept};
ghost use Rattle.sn_text_rules.specs.Tokens.{word_lexeme};
ghost use Rattle.sn_text_rules.specs.Words.{same, wrong, word_in, judged_by};
ghost use Rattle.sn_text.specs.Lexing.{left, seen};
ghost use Rattle.sn_text.specs.Reading.{Reads};
ghost use Rattle.sn_query_grammar.specs.Names.{is_keyword, name_test, name_not, past_name, past_number, cmp_in, any_cmp, comparison, fold_in, no_sum};
ghost use Rattle.sn_query_grammar.specs.Names.{plain_fold};
ghost use Rattle.sn_query_grammar.specs.Grammar.{past_col, col_names, query_names};

use sn_base::name::Name;
use sn_query_grammar::ast::{Cmp, FoldWord, MapCol, Query};
use sn_text::place::{Lexer, Piece};
use sn_text::scan::scan;
use sn_text::stop::Stop;
use sn_text::words::wrong_of;
use sn_text_rules::Flaw;

pub(crate) fn is_full_at(count: usize, limit: usize) -> bool
    ensures { result ≡ nat_le limit count }
{
    limit <= count
}

fn is_same(word: &[u8], text: &[u8]) -> bool
    ensures { result ≡ same word.now text.now }
{
    word == text
}

fn is_reserved(word: &[u8]) -> bool
    ensures { result ≡ is_keyword word.now }
{
    is_same(word, b"window")
        || is_same(word, b"query")
        || is_same(word, b"refine")
        || is_same(word, b"packets")
        || is_same(word, b"filter")
        || is_same(word, b"map")
        || is_same(word, b"distinct")
        || is_same(word, b"reduce")
        || is_same(word, b"sum")
        || is_same(word, b"max")
        || is_same(word, b"min")
        || is_same(word, b"or")
        || is_same(word, b"width")
        || is_same(word, b"join")
        || is_same(word, b"at")
        || is_same(word, b"as")
}

fn name_in(word: &[u8]) -> Result<Name, Flaw>
    ensures { result ≡ judged_by (name_test []) kept (word_lexeme word.now) (word_in (word_lexeme word.now)) }
{
    if is_reserved(word) || word.is_empty() {
        return Err(Flaw::Expected);
    }
    match Name::new(word) {
        None => Err(Flaw::TooMany),
        Some(name) => Ok(name),
    }
}

fn name_of(piece: Piece<'_>) -> Result<Name, Flaw>
    ensures { result ≡ judged_by (name_test []) kept (seen piece.entry) (word_in (seen piece.entry)) }
{
    match piece {
        Piece::Word(word) => name_in(word),
        _ => Err(wrong_of(piece)),
    }
}

/// A name, and the place after it.
#[tactic(auto, using(crate::proofs::Leaves::word_gives, crate::proofs::Leaves::word_halts))]
pub fn name<'a>(at: Lexer<'a>) -> Result<(Name, Lexer<'a>), Stop<'a>>
    ensures { Reads result ((name_not []).read kept (left at.entry)) }
{
    let (found, after) = scan(at);
    match name_of(found.piece) {
        Ok(name) => Ok((name, after)),
        Err(flaw) => Err(Stop::Fault(flaw, at)),
    }
}

fn is_among(name: &Name, taken: &[Name]) -> bool
    ensures { result ≡ list_any (same name.now) taken.now }
{
    taken
        .iter()
        .any(|other| is_same(name.as_bytes(), other.as_bytes()))
}

/// A name that is none of those taken, and the place after it.
#[tactic(auto, using(crate::proofs::Leaves::fresh_gives, crate::proofs::Leaves::fresh_halts, crate::proofs::Leaves::twice_halts))]
pub fn new_name<'a>(at: Lexer<'a>, taken: &[Name]) -> Result<(Name, Lexer<'a>), Stop<'a>>
    ensures { Reads result ((name_not taken.now).read kept (left at.entry)) }
{
    let (name, rest) = match name(at) {
        Ok(found) => found,
        Err(stop) => return Err(stop),
    };
    if is_among(&name, taken) {
        return Err(Stop::Fault(Flaw::Twice, at));
    }
    Ok((name, rest))
}

fn is_column(name: &Name, taken: &[MapCol]) -> bool
    ensures { result ≡ list_any (λ col. same name.now col.name) taken.now }
{
    taken
        .iter()
        .any(|col| is_same(name.as_bytes(), col.name.as_bytes()))
}

/// The name of a column that is none of those taken, and the place after it.
#[tactic(auto, using(crate::proofs::Leaves::col_gives, crate::proofs::Leaves::fresh_halts, crate::proofs::Leaves::col_twice))]
pub fn new_col_name<'a>(at: Lexer<'a>, taken: &[MapCol]) -> Result<(Name, Lexer<'a>), Stop<'a>>
    ensures { Reads result ((name_not (col_names taken.now)).read kept (left at.entry)) }
{
    let (name, rest) = match name(at) {
        Ok(found) => found,
        Err(stop) => return Err(stop),
    };
    if is_column(&name, taken) {
        return Err(Stop::Fault(Flaw::Twice, at));
    }
    Ok((name, rest))
}

fn is_query(name: &Name, taken: &[Query]) -> bool
    ensures { result ≡ list_any (λ query. same name.now query.name) taken.now }
{
    taken
        .iter()
        .any(|query| is_same(name.as_bytes(), query.name.as_bytes()))
}

/// The name of a query that is none of those taken, and the place after it.
#[tactic(auto, using(crate::proofs::Leaves::query_gives, crate::proofs::Leaves::fresh_halts, crate::proofs::Leaves::query_twice))]
pub fn new_query_name<'a>(at: Lexer<'a>, taken: &[Query]) -> Result<(Name, Lexer<'a>), Stop<'a>>
    ensures { Reads result ((name_not (query_names taken.now)).read kept (left at.entry)) }
{
    let (name, rest) = match name(at) {
        Ok(found) => found,
        Err(stop) => return Err(stop),
    };
    if is_query(&name, taken) {
        return Err(Stop::Fault(Flaw::Twice, at));
    }
    Ok((name, rest))
}

/// What is wrong with a name past a limit that begins so.
pub(crate) fn past_name_of(piece: Piece<'_>) -> Flaw
    ensures { result ≡ past_name (seen piece.entry) }
{
    match piece {
        Piece::Word(word) => {
            if is_reserved(word) || word.is_empty() {
                Flaw::Expected
            } else {
                Flaw::TooMany
            }
        }
        _ => wrong_of(piece),
    }
}

/// What is wrong with a number past a limit that begins so.
pub(crate) fn past_number_of(piece: Piece<'_>, low: u64, high: u64) -> Flaw
    ensures { result ≡ past_number low high (seen piece.entry) }
{
    match piece {
        Piece::Number(number) => {
            if number >= low && number <= high {
                Flaw::TooMany
            } else {
                Flaw::Expected
            }
        }
        _ => wrong_of(piece),
    }
}

/// What is wrong with a map's column past a limit that begins so.
pub(crate) fn past_col_of(piece: Piece<'_>) -> Flaw
    ensures { result ≡ past_col (seen piece.entry) }
{
    match piece {
        Piece::Number(_) => past_number_of(piece, 0, u64::MAX),
        _ => past_name_of(piece),
    }
}

fn cmp_of(piece: Piece<'_>) -> Result<Cmp, Flaw>
    ensures { result ≡ judged_by any_cmp kept (seen piece.entry) (cmp_in (seen piece.entry)) }
{
    match piece {
        Piece::Symbol(12) => Ok(Cmp::Eq),
        Piece::Symbol(13) => Ok(Cmp::Ne),
        Piece::Symbol(14) => Ok(Cmp::Lt),
        Piece::Symbol(15) => Ok(Cmp::Le),
        Piece::Symbol(16) => Ok(Cmp::Gt),
        Piece::Symbol(17) => Ok(Cmp::Ge),
        _ => Err(wrong_of(piece)),
    }
}

/// A comparison, and the place after it.
#[tactic(auto, using(crate::proofs::Leaves::cmp_gives, crate::proofs::Leaves::cmp_halts))]
pub fn cmp<'a>(at: Lexer<'a>) -> Result<(Cmp, Lexer<'a>), Stop<'a>>
    ensures { Reads result (comparison.read kept (left at.entry)) }
{
    let (found, after) = scan(at);
    match cmp_of(found.piece) {
        Ok(cmp) => Ok((cmp, after)),
        Err(flaw) => Err(Stop::Fault(flaw, at)),
    }
}

fn fold_in_word(word: &[u8]) -> Result<FoldWord, Flaw>
    ensures { result ≡ judged_by no_sum kept (word_lexeme word.now) (fold_in (word_lexeme word.now)) }
{
    if is_same(word, b"sum") {
        Err(Flaw::Expected)
    } else if is_same(word, b"max") {
        Ok(FoldWord::Max)
    } else if is_same(word, b"min") {
        Ok(FoldWord::Min)
    } else if is_same(word, b"or") {
        Ok(FoldWord::Or)
    } else {
        Err(Flaw::Expected)
    }
}

fn fold_of(piece: Piece<'_>) -> Result<FoldWord, Flaw>
    ensures { result ≡ judged_by no_sum kept (seen piece.entry) (fold_in (seen piece.entry)) }
{
    match piece {
        Piece::Word(word) => fold_in_word(word),
        _ => Err(wrong_of(piece)),
    }
}

/// The word of a fold other than a sum, and the place after it.
#[tactic(auto, using(crate::proofs::Leaves::fold_gives, crate::proofs::Leaves::fold_halts))]
pub fn fold_word<'a>(at: Lexer<'a>) -> Result<(FoldWord, Lexer<'a>), Stop<'a>>
    ensures { Reads result (plain_fold.read kept (left at.entry)) }
{
    let (found, after) = scan(at);
    match fold_of(found.piece) {
        Ok(fold) => Ok((fold, after)),
        Err(flaw) => Err(Stop::Fault(flaw, at)),
    }
}
