//! The command that words spell.
ghost use Rattle.std.specs.Prelude.{◌≡◌, IfOk, IsErr};
ghost use Rattle.sn_cli.specs.declared.command.Command.{Command};
ghost use Rattle.sn_cli.specs.Grammar.{Spells};
ghost use Rattle.sn_cli.specs.Reading.{all_file_words, line_of, lone_number, bare_of, plan_with, plan_of, run_of, live_of, many_of, replan_with, replan_of};
ghost use Rattle.sn_cli.specs.Reading.{command_with, command_of};
ghost use Rattle.sn_cli.specs.Words.{texts, is_file_word, word_at};

use crate::command::{Command, WordFault};
use crate::numbers::number;
use crate::options::{NO_OPTIONS, Options, read_options};

/// The most nodes that a tree may expand, or steps that an attempt may take, where no number is given.
const NODES: u32 = 100_000;

/// The texts before the captures of `many`: those of the switch, the queries and the plan.
const TEXTS: usize = 3;

/// The fewest captures of `many`.
const FEWEST_CAPTURES: usize = 2;

/// The most captures of `many`.
const MOST_CAPTURES: usize = 8;

fn is_file_word(word: &str) -> bool
    ensures { result ≡ is_file_word word.now }
{
    let word = word.as_bytes();
    !word.is_empty() && word[0] != b'-'
}

fn are_file_words(words: &[String]) -> bool
    ensures { result ≡ all_file_words (texts words.now) }
{
    for word in words {
        if !is_file_word(word.as_str()) {
            return false;
        }
    }
    true
}

/// What the options after this many file words say.
fn line(words: &[String], files: usize) -> Option<Options>
    ensures { result ≡ line_of files (texts words.now) }
{
    if words.len() < files {
        return None;
    }
    let (names, following) = words.split_at(files);
    if !are_file_words(names) {
        return None;
    }
    read_options(following, NO_OPTIONS)
}

/// The number of a word that stands alone.
fn lone_number(words: &[String]) -> Option<u32>
    ensures { result ≡ lone_number (texts words.now) }
{
    match words {
        [word] => number(word.as_str(), 0, u32::MAX),
        _ => None,
    }
}

/// A command without options, if none is given.
fn bare(command: Command, given: Options) -> Option<Command>
    ensures { result ≡ bare_of command given }
{
    match given {
        Options {
            nodes: None,
            schedule: None,
            csv: false,
            trace: false,
            prices: false,
        } => Some(command),
        _ => None,
    }
}

/// `plan`, with prices or without them.
fn plan_with(prices: bool, nodes: u32) -> Command
    ensures { result ≡ plan_with prices nodes }
{
    if prices {
        Command::PlanPrices { nodes }
    } else {
        Command::Plan { nodes }
    }
}

fn plan(given: Options) -> Option<Command>
    ensures { result ≡ plan_of given }
{
    match given {
        Options {
            nodes,
            schedule: None,
            csv: false,
            trace: false,
            prices,
        } => Some(plan_with(prices, nodes.unwrap_or(NODES))),
        _ => None,
    }
}

fn run(given: Options) -> Option<Command>
    ensures { result ≡ run_of given }
{
    match given {
        Options {
            nodes: None,
            schedule: None,
            csv,
            trace: false,
            prices: false,
        } => Some(Command::Run { csv }),
        _ => None,
    }
}

fn live(given: Options) -> Option<Command>
    ensures { result ≡ live_of given }
{
    match given {
        Options {
            nodes,
            schedule,
            csv: false,
            trace,
            prices: false,
        } => Some(Command::Live {
            nodes: nodes.unwrap_or(NODES),
            schedule: schedule.unwrap_or(0),
            trace,
        }),
        _ => None,
    }
}

/// `many`, whose captures are all the words after the three texts.
fn many(rest: &[String]) -> Option<Command>
    ensures { result ≡ many_of (texts rest.now) }
{
    if rest.len() < TEXTS + FEWEST_CAPTURES || rest.len() > TEXTS + MOST_CAPTURES {
        return None;
    }
    let captures = (rest.len() - TEXTS) as u32;
    bare(Command::Many { captures }, line(rest, rest.len())?)
}

/// The word at a place, and an empty one after the last.
fn word(words: &[String], place: usize) -> &str
    ensures { result.now ≡ word_at (texts words.now) place }
{
    match words.get(place) {
        Some(word) => word.as_str(),
        None => "",
    }
}

fn replan_with(most: u32, given: Options) -> Option<Command>
    ensures { result ≡ replan_with most given }
{
    match given {
        Options {
            nodes,
            schedule: None,
            csv: false,
            trace: false,
            prices: false,
        } => Some(Command::Replan {
            most,
            nodes: nodes.unwrap_or(NODES),
        }),
        _ => None,
    }
}

/// `replan`, whose last word before the options is a number.
fn replan(rest: &[String]) -> Option<Command>
    ensures { result ≡ replan_of (texts rest.now) }
{
    let given = line(rest, 5)?;
    let most = number(word(rest, 4), 0, u32::MAX)?;
    replan_with(most, given)
}

/// The command of a command word and the words after it.
fn command(word: &str, rest: &[String]) -> Option<Command>
    ensures { result ≡ command_with word.now (texts rest.now) }
{
    match word {
        "plain" => bare(Command::Plain, line(rest, 2)?),
        "plan" => plan(line(rest, 3)?),
        "run" => run(line(rest, 4)?),
        "emit" => bare(Command::Emit, line(rest, 4)?),
        "finish" => bare(Command::Finish, line(rest, 3)?),
        "check" => bare(Command::Check, line(rest, 4)?),
        "live" => live(line(rest, 4)?),
        "detect" => bare(Command::Detect, line(rest, 3)?),
        "many" => many(rest),
        "replan" => replan(rest),
        "gen" => Some(Command::Gen {
            number: lone_number(rest)?,
        }),
        "job" => Some(Command::Job {
            number: lone_number(rest)?,
        }),
        _ => None,
    }
}

/// The command that the words spell, `Usage` exactly where they spell none. Takes no memory.
pub fn words(words: &[String]) -> Result<Command, WordFault>
    ensures ok { IfOk result (λ command. Spells (texts words.now) command) }
    ensures usage { IsErr result → (command : Command) → Spells (texts words.now) command → ⊥ }
{
    let Some((first, rest)) = words.split_first() else {
        return Err(WordFault::Usage);
    };
    match command(first.as_str(), rest) {
        Some(command) => Ok(command),
        None => Err(WordFault::Usage),
    }
}
