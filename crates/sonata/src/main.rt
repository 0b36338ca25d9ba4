//! `sonata`: query-driven network telemetry over packet captures.
#![tactic(auto)]

mod nets;

use crate::nets::top_with_nets;
use sn_io::real::{RealInputs, RealSink};
use std::alloc::Global;
use std::env;
use std::process::ExitCode;

/// How large a block is that is taken and given back at the start: just below 32 MiB, in bytes.
const FIRST_BLOCK: usize = (32 << 20) - (64 << 10);

/// Takes a large block and gives it back.
///
/// The C library asks the kernel for each large block by itself and returns it at once, until a block as large was
/// given back (mallopt(3), `M_MMAP_THRESHOLD`). After this the memory of a window serves the next one.
fn keep_pages(alloc: Global) {
    let _: Result<Vec<u8>, _> = Vec::with_capacity(alloc, FIRST_BLOCK);
}

/// Passes the words, the files that they name and the standard streams to the top call with nets, and ends with its status.
fn main(rt: HostRuntime) -> ExitCode {
    keep_pages(rt.alloc());
    let Ok(args) = env::args(&rt) else {
        return ExitCode::from(13);
    };
    let mut words = Vec::new(rt.alloc());
    for word in args.skip(1) {
        if words.push(word).is_err() {
            return ExitCode::from(1);
        }
    }
    let Ok(mut files) = RealInputs::new(&rt, rt.alloc(), &words) else {
        return ExitCode::from(1);
    };
    let mut out = RealSink::out(&rt);
    let mut err = RealSink::err(&rt);
    ExitCode::from(top_with_nets(rt.alloc(), &words, &mut files, &mut out, &mut err))
}
