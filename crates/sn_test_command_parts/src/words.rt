//! Words: the command that they spell, and words that spell none.
use sn_cli::command::{Command, WordFault};
use sn_cli::words::words;
use sn_test_inputs::trouble::Trouble;
use std::alloc::Global;

/// Each command, its options in any order, and the ends of the ranges of numbers.
const SPELT: [(&str, Command); 24] = [
    ("plain,q,c", Command::Plain),
    ("plan,s,q,t", Command::Plan { nodes: 100_000 }),
    ("run,s,q,p,c", Command::Run { csv: false }),
    ("run,s,q,p,c,--csv", Command::Run { csv: true }),
    ("emit,s,q,p,c", Command::Emit),
    ("finish,q,p,r", Command::Finish),
    ("detect,q,p,c", Command::Detect),
    ("many,s,q,p,c,d", Command::Many { captures: 2 }),
    ("many,s,q,p,c,c,c,c,c,c,c,c", Command::Many { captures: 8 }),
    (
        "replan,s,q,t,c,0",
        Command::Replan {
            most: 0,
            nodes: 100_000,
        },
    ),
    (
        "replan,s,q,t,c,4294967295,--nodes,5",
        Command::Replan {
            most: 4_294_967_295,
            nodes: 5,
        },
    ),
    ("check,s,q,t,p", Command::Check),
    ("gen,0", Command::Gen { number: 0 }),
    (
        "job,4294967295",
        Command::Job {
            number: 4_294_967_295,
        },
    ),
    (
        "live,s,q,t,c",
        Command::Live {
            nodes: 100_000,
            schedule: 0,
            trace: false,
        },
    ),
    (
        "live,s,q,t,c,--nodes,5",
        Command::Live {
            nodes: 5,
            schedule: 0,
            trace: false,
        },
    ),
    (
        "live,s,q,t,c,--trace,--schedule,7,--nodes,5",
        Command::Live {
            nodes: 5,
            schedule: 7,
            trace: true,
        },
    ),
    (
        "live,s,q,t,c,--nodes,5,--trace,--schedule,7",
        Command::Live {
            nodes: 5,
            schedule: 7,
            trace: true,
        },
    ),
    (
        "live,s,q,t,c,--schedule,7",
        Command::Live {
            nodes: 100_000,
            schedule: 7,
            trace: false,
        },
    ),
    ("plan,s,q,t,--nodes,1", Command::Plan { nodes: 1 }),
    ("plan,s,q,t,--nodes,0000000001", Command::Plan { nodes: 1 }),
    (
        "plan,s,q,t,--nodes,1000000",
        Command::Plan { nodes: 1_000_000 },
    ),
    (
        "live,s,q,t,c,--schedule,0",
        Command::Live {
            nodes: 100_000,
            schedule: 0,
            trace: false,
        },
    ),
    (
        "live,s,q,t,c,--schedule,4294967295",
        Command::Live {
            nodes: 100_000,
            schedule: 4_294_967_295,
            trace: false,
        },
    ),
];

/// Lines of words that spell no command. The first has no word.
const REFUSED: &str = "
--help
plain,q
plain,q,c,d
plain,q,-
plain,,c
Plain,q,c
plain,q,c,--csv
many,s,q,p,c
many,s,q,p,c,c,c,c,c,c,c,c,c
many,s,q,p,c,d,--csv
run,s,q,p,c,--csv=1
run,s,q,p,c,--csv,--csv
plan,--nodes,5,s,q,t
plan,s,q,t,--nodes=5
plan,s,q,t,--nodes
plan,s,q,t,--nodes,5,--nodes,5
plan,s,q,t,--schedule,5
live,s,q,t,c,--nodes,5,d
replan,s,q,t,c
replan,s,q,t,c,4294967296
replan,s,q,t,c,-1
replan,s,q,t,c,5,6
replan,s,q,t,c,5,--schedule,5
replan,s,q,t,c,--nodes,5
replan,s,q,t,c,--nodes,5,5
gen
gen,1,2
plan,s,q,t,--nodes,0
plan,s,q,t,--nodes,1000001
plan,s,q,t,--nodes,00000000001
plan,s,q,t,--nodes,
plan,s,q,t,--nodes,+5
plan,s,q,t,--nodes,0x5
live,s,q,t,c,--schedule,4294967296
live,s,q,t,c,--schedule,
gen,4294967296
gen,
job,9999999999
job,-1";

/// What the words of a line spell, which commas stand between. An empty line has no word.
fn spelt(alloc: Global, line: &str) -> Result<Result<Command, WordFault>, Trouble> {
    let mut given = Vec::new(alloc);
    if line.is_empty() {
        return Ok(words(&given));
    }
    for word in line.split(',') {
        given.push(String::from_str(alloc, word)?)?;
    }
    Ok(words(&given))
}

#[test]
fn reads_commands(rt: HostRuntime) {
    for (line, command) in SPELT {
        assert_eq!(rt;
            spelt(rt.alloc(), line).expect(&rt, "ample memory"),
            Ok(command),
            "of {line}"
        );
    }
}

#[test]
fn refuses_other_words(rt: HostRuntime) {
    for line in REFUSED.lines() {
        assert_eq!(rt;
            spelt(rt.alloc(), line).expect(&rt, "ample memory"),
            Err(WordFault::Usage),
            "of {line}"
        );
    }
}
