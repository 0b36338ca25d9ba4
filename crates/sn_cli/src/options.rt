//! The options of a command line.
ghost use Rattle.std.specs.Prelude.{◌≡◌};
ghost use Rattle.sn_cli.specs.Reading.{is_flag, flag_of, numbered_of, options_from};
ghost use Rattle.sn_cli.specs.Words.{texts};

use crate::numbers::number;

/// What options say: each may be given once.
#[derive(Clone, Copy, Debug, PartialEq, Eq)]
pub struct Options {
    /// The number after `--nodes`.
    pub nodes: Option<u32>,
    /// The number after `--schedule`.
    pub schedule: Option<u32>,
    /// `--csv` is given.
    pub csv: bool,
    /// `--trace` is given.
    pub trace: bool,
    /// `--prices` is given.
    pub prices: bool,
}

/// No option is given.
pub const NO_OPTIONS: Options = Options {
    nodes: None,
    schedule: None,
    csv: false,
    trace: false,
    prices: false,
};

/// Whether a word is an option without a number.
fn is_flag(word: &str) -> bool
    ensures { result ≡ is_flag word.now }
{
    word == "--csv" || word == "--trace" || word == "--prices"
}

/// What is given with an option without a number, if it wasn't given before.
fn flag(word: &str, given: Options) -> Option<Options>
    ensures { result ≡ flag_of word.now given }
{
    if word == "--csv" && !given.csv {
        Some(Options { csv: true, ..given })
    } else if word == "--trace" && !given.trace {
        Some(Options {
            trace: true,
            ..given
        })
    } else if word == "--prices" && !given.prices {
        Some(Options {
            prices: true,
            ..given
        })
    } else {
        None
    }
}

/// What is given with an option and its number, if it wasn't given before.
fn numbered(word: &str, following: &str, given: Options) -> Option<Options>
    ensures { result ≡ numbered_of word.now following.now given }
{
    if word == "--nodes" && given.nodes.is_none() {
        let nodes = number(following, 1, 1_000_000)?;
        Some(Options {
            nodes: Some(nodes),
            ..given
        })
    } else if word == "--schedule" && given.schedule.is_none() {
        let schedule = number(following, 0, u32::MAX)?;
        Some(Options {
            schedule: Some(schedule),
            ..given
        })
    } else {
        None
    }
}

/// Reads words that are options, none of them given before. Each turn gives one that wasn't, so there are at most six.
pub fn read_options(words: &[String], given: Options) -> Option<Options>
    ensures { result ≡ options_from given (texts words.now) }
{
    let Some((word, rest)) = words.split_first() else {
        return Some(given);
    };
    let Some((following, after)) = rest.split_first() else {
        return flag(word.as_str(), given);
    };
    if is_flag(word.as_str()) {
        read_options(rest, flag(word.as_str(), given)?)
    } else {
        read_options(after, numbered(word.as_str(), following.as_str(), given)?)
    }
}
