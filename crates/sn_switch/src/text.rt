//! The switch of a text.
ghost use Rattle.std.specs.Prelude.{◌≡◌, ◌≤◌, ◌^◌, length, option_map, IfOk, IfErr};
ghost use Rattle.std.specs.List.{All, find};
ghost use Rattle.sn_text_rules.specs.Rules.{kept};
ghost use Rattle.sn_text.specs.Cutting.{tokens_of};
ghost use Rattle.sn_text.specs.Lexing.{left};
ghost use Rattle.sn_switch_grammar.specs.Settings.{sets};
ghost use Rattle.sn_switch_grammar.specs.Grammar.{lone, switch_rule};
ghost use Rattle.sn_switch_grammar.specs.Wholes.{numbers_in, first_of, IsIn};
ghost use Rattle.sn_switch.specs.declared.switch.Switch.{Switch};
ghost use Rattle.sn_switch.specs.Texts.{IsSwitch, switch_in, StandsFor, IsFault, IsValue, fault_of, Answers};
ghost use Rattle.sn_text_rules.specs.Tokens.{first_line};
ghost use Rattle.sn_chain.specs.Limits.{largest_register};

use crate::fault::SwitchFault;
use crate::read::read;
use crate::settings::is;
use crate::switch::Switch;
use sn_base::memory::Memory;
use sn_base::seq::Seq;
use sn_switch_grammar::item::{Item, Setting};
use sn_text::place::Lexer;
use sn_text::scan::scan;
use sn_text::stop::Stop;
use sn_text_rules::Flaw;
use std::alloc::Global;

/// The first item of a setting.
fn item_of(items: &[Item], setting: Setting) -> Option<&Item>
    ensures { option_map (λ item. item.now) result ≡ find (sets setting) items.now }
{
    items.iter().find(|item| is(setting, item.setting))
}

/// The numbers of a setting.
fn numbers_in<'a>(items: &'a [Item], setting: Setting) -> &'a [u64]
    ensures { result.now ≡ numbers_in setting items.now }
{
    match item_of(items, setting) {
        None => &[],
        Some(item) => item.numbers.as_slice(),
    }
}

/// The one number of a setting, and 0 without its item.
fn number_in(items: &[Item], setting: Setting) -> u64
    ensures { result ≡ first_of (numbers_in setting items.now) }
{
    match numbers_in(items, setting) {
        [] => 0,
        [number, ..] => *number,
    }
}

/// The one number of a setting, if there is one.
fn limit_in(items: &[Item], setting: Setting) -> Option<u64>
    ensures { result ≡ lone (numbers_in setting items.now) }
{
    match numbers_in(items, setting) {
        [number] => Some(*number),
        _ => None,
    }
}

fn sizes_in(alloc: Global, numbers: &[u64]) -> Result<Seq<u32>, Memory>
    requires { All (λ n. IsIn 1 largest_register n) numbers.now }
    ensures { IfOk result (λ sizes. sizes ≡ numbers.now) }
{
    let mut sizes = Seq::new(alloc);
    for number in numbers {
        sizes.push(*number as u32)?;
    }
    Ok(sizes)
}

/// What the items of a whole text set.
#[tactic(auto, using(crate::proofs::Switches::bounds))]
fn switch_of(alloc: Global, items: &[Item]) -> Result<Switch, Memory>
    requires { switch_rule.fits kept items.now }
    ensures value { IfOk result (λ s. s ≡ switch_in items.now) }
    ensures limits { IfOk result (λ s. IsSwitch s) }
{
    let slots = sizes_in(alloc, numbers_in(items, Setting::Slots))?;
    Ok(Switch {
        stages: number_in(items, Setting::Stages) as u32,
        actions: number_in(items, Setting::Actions) as u32,
        bits: number_in(items, Setting::Bits),
        meta: number_in(items, Setting::Meta) as u32,
        chain: number_in(items, Setting::Chain) as u32,
        slots,
        entries: limit_in(items, Setting::Entries).map(|n| n as u32),
        weight: number_in(items, Setting::Weight) as u32,
    })
}

fn fault(flaw: Flaw, line: u32) -> SwitchFault
    ensures { result ≡ fault_of flaw line }
{
    match flaw {
        Flaw::Lex => SwitchFault::Lex { line },
        Flaw::Range => SwitchFault::Range { line },
        Flaw::Twice => SwitchFault::Twice { line },
        Flaw::Missing => SwitchFault::Missing { line },
        // No list of a switch text has a limit that `TooMany` reports.
        Flaw::Expected | Flaw::TooMany => SwitchFault::Expected { line },
    }
}

/// The line of the next token.
fn line_at(at: Lexer<'_>) -> u32
    ensures { result ≡ first_line (left at.entry) }
{
    let (found, _) = scan(at);
    found.line
}

fn answer(stop: Stop<'_>) -> SwitchFault
    ensures { Answers stop.entry result }
{
    match stop {
        Stop::NoMemory => SwitchFault::Memory,
        Stop::Fault(flaw, at) => fault(flaw, line_at(at)),
    }
}

/// The switch that the text stands for, or the first fault of the text.
///
/// A text has each of the six items `stages N;`, `actions N;`, `bits N;`, `meta N;`, `chain N;` and `slots N, ..;`
/// once, and `entries N;` and `weight N;` at most once, in any order, within the ranges that [`Switch`] names. It has at most 2^30
/// bytes.
///
/// # Errors
/// `Memory` where memory runs out, and else what is wrong with the first token with which no such text goes on.
pub fn parse(alloc: Global, text: &[u8]) -> Result<Switch, SwitchFault>
    requires { length text.now ≤ 2 ^ 30 }
    // What is read is what the text stands for.
    ensures found { IfOk result (λ s. StandsFor (tokens_of text.now) s) }
    // What the text stands for is read, unless memory runs out.
    ensures only { (s : Switch) → StandsFor (tokens_of text.now) s → IsValue s result }
    // Else the first fault.
    ensures fault { IfErr result (λ e. IsFault (tokens_of text.now) e) }
    ensures limits { IfOk result (λ s. IsSwitch s) }
{
    match read(alloc, Lexer::new(text)) {
        Ok(items) => match switch_of(alloc, items.as_slice()) {
            Ok(switch) => Ok(switch),
            Err(_) => Err(SwitchFault::Memory),
        },
        Err(stop) => Err(answer(stop)),
    }
}
