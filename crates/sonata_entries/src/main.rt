//! `sonata_entries SWITCH QUERIES TRAIN`: the cost table of a training capture as a text, a line for each entry.
#![tactic(auto)]

pub mod entries;
pub mod run;
pub mod table;

use crate::run::run;
use sn_io::real::{RealInputs, RealSink};
use std::env;
use std::process::ExitCode;

/// Passes the words, the files that they name and the standard streams to [`run`], and ends with its status.
fn main(rt: HostRuntime) -> ExitCode {
    let Ok(args) = env::args(&rt) else {
        return ExitCode::from(13);
    };
    let mut words = Vec::new(rt.alloc());
    for word in args.skip(1) {
        if words.push(word).is_err() {
            return ExitCode::from(1);
        }
    }
    let Ok(mut files) = RealInputs::new(&rt, rt.alloc(), &words) else {
        return ExitCode::from(1);
    };
    let mut out = RealSink::out(&rt);
    let mut err = RealSink::err(&rt);
    ExitCode::from(run(rt.alloc(), &words, &mut files, &mut out, &mut err))
}
