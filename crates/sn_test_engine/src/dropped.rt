//! What an engine drops: items of other prefixes than the window before was answered with.
use crate::texts::{NET, REFINED, TWO_LEVELS, lane, plan, queries, row, rows};
use sn_base::short_row::ShortRow;
use sn_engine::engine::Engine;
use sn_engine::fault::TakeFault;
use sn_plan_fit::shape;
use sn_report::frame::{Frame, Item, Tag};
use std::alloc::Global;
use std::process::Abort;

/// An engine of two levels, with nothing cut. In window 0 level 8 has two packets to 10.0.0.0, and is closed.
fn engine_after_a_window(rt: &impl Abort, alloc: Global) -> Engine {
    let mut engine = engine(alloc).expect(rt, "an engine");
    assert!(rt; take(&mut engine, 0, &[NET, NET]).is_ok());
    assert!(rt; end(&mut engine, 0).is_ok());
    let first = engine.close_window().expect(rt, "answers");
    assert_eq!(rt; first.emitted, 2);
    assert_eq!(rt; rows(&first, 0), [row(&[NET, 2])].as_slice());
    engine
}

/// An engine of two levels, with nothing cut.
fn engine(alloc: Global) -> Option<Engine> {
    let t = queries(alloc, REFINED)?;
    let plan = plan(alloc, TWO_LEVELS)?;
    match shape(&t, &plan) {
        Ok(()) => Engine::make(alloc, &t, &plan).ok(),
        Err(_) => None,
    }
}

/// Takes a packet to each of these addresses at a level.
fn take(engine: &mut Engine, level: u8, addresses: &[u64]) -> Result<(), TakeFault> {
    for address in addresses {
        let item = Item {
            tag: Tag::At(0),
            row: row(&[*address]),
        };
        engine.take(&Frame::Row(lane(0, level), item))?;
    }
    Ok(())
}

/// Takes the End of both levels.
fn end(engine: &mut Engine, window: u64) -> Result<(), TakeFault> {
    for level in [0, 1] {
        let frame: Frame<ShortRow> = Frame::End(lane(0, level), window);
        engine.take(&frame)?;
    }
    Ok(())
}

#[test]
fn drops_items_of_other_prefixes(rt: HostRuntime) {
    let mut engine = engine_after_a_window(&rt, rt.alloc());
    assert!(rt;
        take(
            &mut engine,
            1,
            &[NET + 9, 2 * NET + 9, NET + 9, 2 * NET + 9],
        )
        .is_ok()
    );
    assert!(rt; end(&mut engine, 1).is_ok());
    let value = engine.value().expect(&rt, "ample memory");
    assert_eq!(rt; value.emitted, 4);
    assert_eq!(rt; rows(&value, 1), [row(&[NET + 9, 2])].as_slice());
    let second = engine.close_window().expect(&rt, "ample memory");
    assert_eq!(rt; second.emitted, 4);
    assert_eq!(rt; rows(&second, 1), [row(&[NET + 9, 2])].as_slice());
}

#[test]
fn drops_all_items_after_a_gap(rt: HostRuntime) {
    let mut engine = engine_after_a_window(&rt, rt.alloc());
    assert!(rt; take(&mut engine, 1, &[NET + 9, NET + 9]).is_ok());
    assert!(rt; end(&mut engine, 2).is_ok());
    let second = engine.close_window().expect(&rt, "ample memory");
    assert_eq!(rt; second.emitted, 2);
    assert!(rt; rows(&second, 1).is_empty());
}

#[test]
fn keeps_its_prefixes_where_items_are_dropped_at_once(rt: HostRuntime) {
    let mut engine = engine_after_a_window(&rt, rt.alloc());
    assert!(rt; take(&mut engine, 0, &[2 * NET, 2 * NET]).is_ok());
    engine.clear();
    assert!(rt; !engine.started());
    assert!(rt; take(&mut engine, 1, &[NET + 9, NET + 9]).is_ok());
    assert!(rt; end(&mut engine, 1).is_ok());
    let second = engine.close_window().expect(&rt, "ample memory");
    assert_eq!(rt; second.emitted, 2);
    assert!(rt; rows(&second, 0).is_empty());
    assert_eq!(rt; rows(&second, 1), [row(&[NET + 9, 2])].as_slice());
}
