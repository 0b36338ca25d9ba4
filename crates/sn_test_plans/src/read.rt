//! Switch texts and plan texts that are read, and texts with one fault each.
use sn_plan::fault::PlanFault;
use sn_plan_grammar::short::Short;
use sn_switch::fault::SwitchFault;

#[test]
fn reads_a_switch(rt: HostRuntime) {
    let text =
        b"slots 256, 1024, 4096; chain 2;\nbits 8388608; # per stage\nmeta 4096; actions 8; stages 16;";
    match sn_switch::parse(rt.alloc(), text) {
        Err(_) => assert!(rt; false),
        Ok(switch) => {
            assert_eq!(rt;
                (switch.stages, switch.actions, switch.bits),
                (16, 8, 8388608)
            );
            assert_eq!(rt; (switch.meta, switch.chain), (4096, 2));
            assert_eq!(rt; switch.slots.as_slice(), [256, 1024, 4096].as_slice());
            assert_eq!(rt; (switch.entries, switch.weight), (None, 0));
        }
    }
}

fn switch_fault(rt: &HostRuntime, text: &[u8]) -> Option<SwitchFault> {
    if text.len() > 1000 {
        return None;
    }
    sn_switch::parse(rt.alloc(), text).err()
}

#[test]
fn reads_a_switch_with_entries_and_a_weight(rt: HostRuntime) {
    let text =
        b"weight 65536; slots 256; chain 2; bits 8388608; entries 4194304; meta 4096; actions 8; stages 16;";
    match sn_switch::parse(rt.alloc(), text) {
        Err(_) => assert!(rt; false),
        Ok(switch) => assert_eq!(rt; (switch.entries, switch.weight), (Some(4194304), 65536)),
    }
}

#[test]
fn names_the_first_fault_of_a_switch(rt: HostRuntime) {
    for (text, want) in [
        (
            b"stages 4;\nstages 4;".as_slice(),
            SwitchFault::Twice { line: 2 },
        ),
        (b"stage 4;", SwitchFault::Expected { line: 1 }),
        (b"\n@", SwitchFault::Lex { line: 2 }),
        (b"\n\nchain 5;", SwitchFault::Range { line: 3 }),
        (b"stages 4;", SwitchFault::Missing { line: 1 }),
        (b"stages 4;\n", SwitchFault::Missing { line: 2 }),
        (b"", SwitchFault::Missing { line: 1 }),
        (b"stages 4", SwitchFault::Expected { line: 1 }),
        (b"stages 4, 5;", SwitchFault::Expected { line: 1 }),
        (b"slots 1, 2, 3, 4,\n5;", SwitchFault::Range { line: 2 }),
        (b"slots 1, 2, 3, 4,\nx;", SwitchFault::Expected { line: 2 }),
        (b"slots 2,\n1;", SwitchFault::Range { line: 2 }),
        (b"entries 4;", SwitchFault::Missing { line: 1 }),
        (b"entry 4;", SwitchFault::Expected { line: 1 }),
        (b"entries 0;", SwitchFault::Range { line: 1 }),
        (b"weight 65537;", SwitchFault::Range { line: 1 }),
        (b"weight 0;\nweight 0;", SwitchFault::Twice { line: 2 }),
    ] {
        assert_eq!(rt; switch_fault(&rt, text), Some(want));
    }
}

#[test]
fn reads_a_plan(rt: HostRuntime) {
    let text = b"plan query q path 0; piece 0 0 cut 2 slots 1 stages 1; cost @";
    match sn_plan::parse(rt.alloc(), text) {
        Err(_) => assert!(rt; false),
        Ok((plan, byte)) => {
            assert_eq!(rt; byte, 55);
            for entry in plan.entries.as_slice() {
                assert_eq!(rt; entry.name.as_bytes(), b"q".as_slice());
                assert_eq!(rt; entry.levels.as_slice(), [0].as_slice());
                for piece in entry.pieces.as_slice() {
                    assert_eq!(rt; (piece.level, piece.branch, piece.cut), (0, 0, 2));
                    assert_eq!(rt; piece.slots.as_slice(), [1].as_slice());
                    assert_eq!(rt; piece.stages.as_slice(), [1].as_slice());
                }
            }
        }
    }
}

fn plan_fault(rt: &HostRuntime, text: &[u8]) -> Option<PlanFault> {
    if text.len() > 1000 {
        return None;
    }
    sn_plan::parse(rt.alloc(), text).err()
}

#[test]
fn names_the_first_fault_of_a_plan(rt: HostRuntime) {
    for (text, want) in [
        (b"plan cost".as_slice(), PlanFault::Expected { line: 1 }),
        (b"plan query cost path 0;\n@", PlanFault::Lex { line: 2 }),
        (b"plan query q path 129;", PlanFault::Expected { line: 1 }),
        (
            b"plan query q path 1, 2, 3, 4\n, 5;",
            PlanFault::Expected { line: 2 },
        ),
        (
            b"plan query q path 0; piece 0 0 cut 1 slots 1\n;",
            PlanFault::Expected { line: 2 },
        ),
        (
            b"plan query q path 0; piece 0 0 cut 1\nstages 1;",
            PlanFault::Expected { line: 2 },
        ),
        (
            b"plan query q path 0; cost2",
            PlanFault::Expected { line: 1 },
        ),
    ] {
        assert_eq!(rt; plan_fault(&rt, text), Some(want));
    }
}

#[test]
fn prints_a_plan(rt: HostRuntime) {
    let text =
        b"plan query q path 0; piece 0 0 cut 2 slots 1 stages 1; query r path 8,16; piece 8 0 cut 0;";
    let want =
        b"plan\nquery q path 0;\npiece 0 0 cut 2 slots 1 stages 1;\nquery r path 8, 16;\npiece 8 0 cut 0;\n";
    match sn_plan::parse(rt.alloc(), text) {
        Err(_) => assert!(rt; false),
        Ok((plan, _)) => match sn_plan::print(rt.alloc(), &plan) {
            Err(_) => assert!(rt; false),
            Ok(written) => assert_eq!(rt; written.as_slice(), want.as_slice()),
        },
    }
}

#[test]
fn holds_eight_numbers(rt: HostRuntime) {
    let numbers = [1, 2, 3, 4, 5, 6, 7, 8, 9];
    assert!(rt; Short::new(rt.alloc(), &numbers).is_none());
    match Short::new(rt.alloc(), &numbers[..8]) {
        None => assert!(rt; false),
        Some(short) => assert_eq!(rt; short.as_slice(), &numbers[..8]),
    }
}
