//! The words of a switch text.
ghost use Rattle.std.specs.Prelude.{◌≡◌};
ghost use Rattle.sn_text_rules.specs.Rules.{kept};
ghost use Rattle.sn_text_rules.specs.Words.{same, judged_by};
ghost use Rattle.sn_text.specs.Lexing.{left, seen};
ghost use Rattle.sn_text.specs.Reading.{Reads, Peeked};
ghost use Rattle.sn_switch_grammar.specs.Settings.{setting_of, setting_in, begins, place, is, has};
ghost use Rattle.sn_switch_grammar.specs.Grammar.{once, setting_rule};

use sn_switch_grammar::item::{Item, Setting};
use sn_text::place::{Lexer, Piece};
use sn_text::scan::scan;
use sn_text::stop::Stop;
use sn_text::words::wrong_of;
use sn_text_rules::Flaw;

/// Its number in the list of settings, from 0.
fn order_of(setting: Setting) -> u8
    ensures { result ≡ place setting }
{
    match setting {
        Setting::Stages => 0,
        Setting::Actions => 1,
        Setting::Bits => 2,
        Setting::Meta => 3,
        Setting::Chain => 4,
        Setting::Slots => 5,
        Setting::Entries => 6,
        Setting::Weight => 7,
    }
}

pub(crate) fn is(a: Setting, b: Setting) -> bool
    ensures { result ≡ is a b }
{
    order_of(a) == order_of(b)
}

/// Whether one of these items is of the setting.
pub(crate) fn has(items: &[Item], setting: Setting) -> bool
    ensures { result ≡ has setting items.now }
{
    items.iter().any(|item| is(setting, item.setting))
}

fn is_same(word: &[u8], text: &[u8]) -> bool
    ensures { result ≡ same word.now text.now }
{
    word == text
}

fn setting_of(word: &[u8]) -> Option<Setting>
    ensures { result ≡ setting_of word.now }
{
    if is_same(word, b"stages") {
        Some(Setting::Stages)
    } else if is_same(word, b"actions") {
        Some(Setting::Actions)
    } else if is_same(word, b"bits") {
        Some(Setting::Bits)
    } else if is_same(word, b"meta") {
        Some(Setting::Meta)
    } else if is_same(word, b"chain") {
        Some(Setting::Chain)
    } else if is_same(word, b"slots") {
        Some(Setting::Slots)
    } else if is_same(word, b"entries") {
        Some(Setting::Entries)
    } else if is_same(word, b"weight") {
        Some(Setting::Weight)
    } else {
        None
    }
}

fn setting_in(piece: Piece<'_>) -> Option<Setting>
    ensures { result ≡ setting_in (seen piece.entry) }
{
    match piece {
        Piece::Word(word) => setting_of(word),
        _ => None,
    }
}

fn new_setting(piece: Piece<'_>, items: &[Item]) -> Result<Setting, Flaw>
    ensures { result ≡ judged_by (once items.now) kept (seen piece.entry) (setting_in (seen piece.entry)) }
{
    match setting_in(piece) {
        None => Err(wrong_of(piece)),
        Some(setting) => {
            if has(items, setting) {
                Err(Flaw::Twice)
            } else {
                Ok(setting)
            }
        }
    }
}

/// What an item sets that none of those before it did, and the place after its word.
#[tactic(auto, using(crate::proofs::Leaves::setting_gives, crate::proofs::Leaves::setting_halts))]
pub(crate) fn setting<'a>(at: Lexer<'a>, items: &[Item]) -> Result<(Setting, Lexer<'a>), Stop<'a>>
    ensures { Reads result ((setting_rule items.now).read kept (left at.entry)) }
{
    let (found, after) = scan(at);
    match new_setting(found.piece, items) {
        Ok(setting) => Ok((setting, after)),
        Err(flaw) => Err(Stop::Fault(flaw, at)),
    }
}

/// Whether an item begins here.
#[tactic(auto, using(sn_text::proofs::Tokens::peeked))]
pub(crate) fn begins(at: Lexer<'_>) -> bool
    ensures { Peeked result begins (left at.entry) }
{
    let (found, _) = scan(at);
    setting_in(found.piece).is_some()
}
