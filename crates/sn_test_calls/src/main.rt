//! Makes the calls of some files by the top call, one after another, and tells of each kind how many answered as the file wants, and
//! of each other call its name and the first line that differs.
#![tactic(auto)]

mod call;
mod cursor;
mod made;
mod tally;
mod trouble;

use crate::call::Call;
use crate::cursor::Cursor;
use crate::tally::Tally;
use crate::trouble::Trouble;
use std::fs;
use std::process::ExitCode;

/// The files of the calls.
const FILES: [&str; 11] = [
    "calls",
    "many.calls",
    "wide.calls",
    "tables.calls",
    "thin.calls",
    "tags.calls",
    "texts.calls",
    "twelve.calls",
    "changing.calls",
    "levels.calls",
    "large.calls",
];

/// Makes each call of a list, and tells those that answer otherwise as they come.
fn make_calls(rt: &HostRuntime, bytes: &[u8], tally: &mut Tally) -> Result<(), Trouble> {
    let alloc = rt.alloc();
    let mut cursor = Cursor::new(bytes);
    for _ in 0..bytes.len() {
        if cursor.is_at_end() {
            break;
        }
        let mut call = Call::read(alloc, &mut cursor)?;
        let difference = call.difference(alloc)?;
        if let Some(difference) = &difference {
            println!(rt; "{} {}", call.name(), difference.as_str())?;
        }
        tally.count(alloc, call.kind(), difference.is_some())?;
    }
    Ok(())
}

/// Makes the calls of all files.
fn make_all(rt: &HostRuntime) -> Result<Tally, Trouble> {
    let mut tally = Tally::new(rt.alloc());
    for name in FILES {
        let bytes = fs::read(rt, name)?;
        make_calls(rt, &bytes, &mut tally)?;
    }
    Ok(tally)
}

/// Makes the calls of all files, and tells how many were alike of each kind. Whether all were.
fn run(rt: &HostRuntime) -> Result<bool, Trouble> {
    let tally = make_all(rt)?;
    for kind in tally.kinds() {
        println!(rt;
            "{}: {} alike, {} differ",
            kind.name(),
            kind.alike(),
            kind.different()
        )?;
    }
    let (alike, different) = tally.sums();
    println!(rt; "all: {alike} alike, {different} differ")?;
    Ok(different == 0)
}

fn main(rt: HostRuntime) -> ExitCode {
    match run(&rt) {
        Ok(true) => ExitCode::SUCCESS,
        Ok(false) => ExitCode::from(1),
        Err(trouble) => {
            let _ = println!(rt; "{}", trouble.text());
            ExitCode::from(2)
        }
    }
}
