//! The numbers of an item.
ghost use Rattle.std.specs.Prelude.{◌≡◌, nat_le};
ghost use Rattle.std.specs.List.{list_all};
ghost use Rattle.sn_text_rules.specs.Rules.{kept};
ghost use Rattle.sn_text_rules.specs.Words.{judged_by, number_at, number_by};
ghost use Rattle.sn_text.specs.Lexing.{left, seen};
ghost use Rattle.sn_text.specs.Reading.{Reads};
ghost use Rattle.sn_switch_grammar.specs.Grammar.{within, one_number, below, size_test, past_size, size_rule, sizes, numbers};
ghost use Rattle.sn_switch_grammar.proofs.Goods.{size_listed};

use sn_base::seq::Seq;
use sn_chain::chain::LARGEST_REGISTER;
use sn_switch_grammar::item::Setting;
use sn_text::commas::{Commas, list};
use sn_text::place::{Lexer, Piece};
use sn_text::scan::scan;
use sn_text::stop::Stop;
use sn_text::words::wrong_of;
use sn_text_rules::Flaw;
use std::alloc::Global;

fn number_of(piece: Piece<'_>, low: u64, high: u64) -> Result<u64, Flaw>
    ensures { result ≡ judged_by (within low high) kept (seen piece.entry) (number_at (seen piece.entry)) }
{
    match piece {
        Piece::Number(number) => {
            if number >= low && number <= high {
                Ok(number)
            } else {
                Err(Flaw::Range)
            }
        }
        _ => Err(wrong_of(piece)),
    }
}

#[tactic(auto, using(crate::proofs::Leaves::number_gives, crate::proofs::Leaves::number_halts))]
fn number<'a>(at: Lexer<'a>, low: u64, high: u64) -> Result<(u64, Lexer<'a>), Stop<'a>>
    ensures { Reads result ((number_by (within low high)).read kept (left at.entry)) }
{
    let (found, after) = scan(at);
    match number_of(found.piece, low, high) {
        Ok(number) => Ok((number, after)),
        Err(flaw) => Err(Stop::Fault(flaw, at)),
    }
}

fn one_number<'a>(
    alloc: Global,
    at: Lexer<'a>,
    low: u64,
    high: u64,
) -> Result<(Seq<u64>, Lexer<'a>), Stop<'a>>
    ensures { Reads result ((one_number low high).read kept (left at.entry)) }
{
    let (number, rest) = number(at, low, high)?;
    let mut numbers = Seq::new(alloc);
    numbers.push(number)?;
    Ok((numbers, rest))
}

fn is_above(number: u64, taken: &[u64]) -> bool
    ensures { result ≡ list_all (below number) taken.now }
{
    taken.iter().all(|other| *other < number)
}

fn size_of(piece: Piece<'_>, taken: &[u64]) -> Result<u64, Flaw>
    ensures { result ≡ judged_by (size_test taken.now) kept (seen piece.entry) (number_at (seen piece.entry)) }
{
    match piece {
        Piece::Number(number) => {
            if number >= 1 && number <= LARGEST_REGISTER && is_above(number, taken) {
                Ok(number)
            } else {
                Err(Flaw::Range)
            }
        }
        _ => Err(wrong_of(piece)),
    }
}

#[tactic(auto, using(crate::proofs::Leaves::size_gives, crate::proofs::Leaves::size_halts))]
fn size<'a>(at: Lexer<'a>, taken: &[u64]) -> Result<(u64, Lexer<'a>), Stop<'a>>
    ensures { Reads result ((size_rule taken.now).read kept (left at.entry)) }
{
    let (found, after) = scan(at);
    match size_of(found.piece, taken) {
        Ok(number) => Ok((number, after)),
        Err(flaw) => Err(Stop::Fault(flaw, at)),
    }
}

/// The sizes of registers.
struct SizeItems;

impl Commas for SizeItems {
    type Item = u64;

    ghost limit = { 4 };

    ghost begun = { past_size };

    ghost rule = { size_rule };

    ghost laws = { size_listed };

    fn is_full(count: usize) -> bool {
        4 <= count
    }

    fn past(piece: Piece<'_>) -> Flaw {
        match piece {
            Piece::Number(_) => Flaw::Range,
            _ => wrong_of(piece),
        }
    }

    fn item<'a>(
        _alloc: Global,
        taken: &[u64],
        at: Lexer<'a>,
    ) -> Result<(u64, Lexer<'a>), Stop<'a>> {
        size(at, taken)
    }
}

fn sizes<'a>(alloc: Global, at: Lexer<'a>) -> Result<(Seq<u64>, Lexer<'a>), Stop<'a>>
    ensures { Reads result (sizes.read kept (left at.entry)) }
{
    let (numbers, rest) = list::<SizeItems>(alloc, at)?;
    Ok((numbers, rest))
}

/// The numbers of a setting, and the place after them.
pub(crate) fn numbers<'a>(
    alloc: Global,
    setting: Setting,
    at: Lexer<'a>,
) -> Result<(Seq<u64>, Lexer<'a>), Stop<'a>>
    ensures { Reads result ((numbers setting).read kept (left at.entry)) }
{
    match setting {
        Setting::Stages => one_number(alloc, at, 1, 32),
        Setting::Actions => one_number(alloc, at, 1, 64),
        Setting::Bits => one_number(alloc, at, 1, 4294967296),
        Setting::Meta => one_number(alloc, at, 0, 65535),
        Setting::Chain => one_number(alloc, at, 1, 4),
        Setting::Slots => sizes(alloc, at),
        Setting::Entries => one_number(alloc, at, 1, 4194304),
        Setting::Weight => one_number(alloc, at, 0, 65536),
    }
}
