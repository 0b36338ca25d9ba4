//! Runs cases of commands, which are tables in files, and tells of each file how many there are, and of each case that answers otherwise
//! what was wanted and what came.
//!
//! A file `TOPIC.cases` is text in paragraphs, with an empty line between two:
//!
//! ```text
//! What the topic is, in words. So are all paragraphs before the first table.
//!
//! table FORM
//! What the table is, in words.
//!
//! the lines of a case
//!
//! the lines of the next case
//! ```
//!
//! The form says what the cases leave out (`table`), and the lines are those of `sn_test_inputs::case`: what the command is given, and
//! after `= ` the lines that are wanted of its text and then of the line on its status, from which the status follows. In a case a
//! backslash and two hexadecimal digits are a byte, so that no file has bytes that are not seen.
#![tactic(auto)]

mod table;
mod topic;

use crate::topic::Topic;
use std::process::ExitCode;
use std::test::Fail;
use std::{fs, str};

/// The topics, in the order in which they are run: captures and query texts, plans, and commands.
const TOPICS: [&str; 19] = [
    "captures",
    "fields",
    "ipv6",
    "queries",
    "tokens",
    "types",
    "values",
    "checks",
    "fits",
    "plans",
    "runs",
    "searched",
    "trees",
    "calls",
    "commands",
    "epochs",
    "finishing",
    "membership",
    "stays",
];

/// Runs the cases of a topic, and tells how many they are. How many, and how many of them answered otherwise.
fn run(rt: &HostRuntime, name: &str) -> Result<(u64, u64), Fail> {
    let path = format!(in rt.alloc(); "{name}.cases")?;
    let bytes = fs::read(rt, path.as_str())?;
    let mut topic = Topic::new(name);
    for paragraph in str::from_utf8(&bytes)?.split("\n\n") {
        topic.take(rt, paragraph)?;
    }
    println!(rt; "{name}: {} cases", topic.cases())?;
    Ok((topic.cases(), topic.differing()))
}

fn main(rt: HostRuntime) -> Result<ExitCode, Fail> {
    let (mut all, mut all_differing) = (0u64, 0u64);
    for name in TOPICS {
        let (cases, differing) = run(&rt, name)?;
        all = all.saturating_add(cases);
        all_differing = all_differing.saturating_add(differing);
    }
    println!(rt; "all: {all} cases, {all_differing} answered otherwise")?;
    Ok(if all_differing == 0 {
        ExitCode::SUCCESS
    } else {
        ExitCode::FAILURE
    })
}
