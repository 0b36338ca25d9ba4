//! What an engine takes, and what it answers.
use crate::texts::{
    COUNTS, NET, ONE_SLOT, SPREAD, TWO_SLOTS, lane, plan, queries, row, rows, sent,
};
use sn_base::short_row::ShortRow;
use sn_engine::engine::Engine;
use sn_engine::fault::{CloseFault, TakeFault};
use sn_plan_fit::shape;
use sn_report::frame::{Frame, Item, Tag};

fn engine(rt: &HostRuntime) -> Option<Engine> {
    let t = queries(rt.alloc(), SPREAD)?;
    let plan = plan(rt.alloc(), TWO_SLOTS)?;
    match shape(&t, &plan) {
        Ok(()) => Engine::make(rt.alloc(), &t, &plan).ok(),
        Err(_) => None,
    }
}

fn end(window: u64) -> Frame<ShortRow> {
    Frame::End(lane(0, 0), window)
}

#[test]
fn strangers_are_refused_first(rt: HostRuntime) {
    let mut engine = engine(&rt).expect(&rt, "an engine");
    let item = Item {
        tag: Tag::At(1),
        row: row(&[NET + 9, NET + 2]),
    };
    let other = Frame::Row(lane(1, 0), item);
    assert_eq!(rt; engine.take(&other), Err(TakeFault::Stranger));
    let other: Frame<ShortRow> = Frame::End(lane(1, 0), 0);
    assert_eq!(rt; engine.take(&other), Err(TakeFault::Stranger));
    let short = row(&[1]);
    for tag in [
        Tag::At(0),
        Tag::At(2),
        Tag::At(4),
        Tag::At(6),
        Tag::Partial(1),
        Tag::Partial(5),
    ] {
        assert_eq!(rt; engine.take(&sent(tag, short)), Err(TakeFault::Stranger));
    }
    assert!(rt; !engine.started());
}

#[test]
fn rows_have_the_columns_of_their_place(rt: HostRuntime) {
    let mut engine = engine(&rt).expect(&rt, "an engine");
    let wide = sent(Tag::At(1), row(&[NET + 9, 4294967296]));
    let three = sent(Tag::At(1), row(&[NET + 9, NET + 2, 0]));
    let part = sent(Tag::Partial(3), row(&[NET + 9, 65536]));
    assert_eq!(rt; engine.take(&wide), Err(TakeFault::Width));
    assert_eq!(rt; engine.take(&three), Err(TakeFault::Width));
    assert_eq!(rt; engine.take(&part), Err(TakeFault::Width));
    assert_eq!(rt; engine.take(&end(7)), Ok(()));
    assert_eq!(rt; engine.take(&three), Err(TakeFault::Width));
    let good = sent(Tag::At(1), row(&[NET + 9, NET + 2]));
    assert_eq!(rt; engine.take(&good), Err(TakeFault::AfterEnd));
    assert_eq!(rt; engine.take(&end(8)), Err(TakeFault::AfterEnd));
}

#[test]
fn answers_what_a_pipe_sends(rt: HostRuntime) {
    let mut engine = engine(&rt).expect(&rt, "an engine");
    assert_eq!(rt; engine.value().err(), Some(CloseFault::Unfinished(0)));
    assert_eq!(rt;
        engine.close_window().err(),
        Some(CloseFault::Unfinished(0))
    );
    let over = sent(Tag::At(1), row(&[NET + 9, NET + 2]));
    let part = sent(Tag::Partial(3), row(&[NET + 9, 1]));
    assert_eq!(rt; engine.take(&over), Ok(()));
    assert_eq!(rt; engine.take(&part), Ok(()));
    assert!(rt; engine.started());
    assert!(rt; !engine.lane_ended(0));
    assert_eq!(rt;
        engine.close_window().err(),
        Some(CloseFault::Unfinished(0))
    );
    assert_eq!(rt; engine.take(&end(4)), Ok(()));
    assert!(rt; engine.lane_ended(0));
    let value = engine.value().expect(&rt, "ample memory");
    assert_eq!(rt; rows(&value, 0), [row(&[NET + 9, 2])].as_slice());
    let answers = engine.close_window().expect(&rt, "ample memory");
    assert_eq!(rt; answers.window, 4);
    assert_eq!(rt; answers.emitted, 2);
    assert_eq!(rt; rows(&answers, 0), [row(&[NET + 9, 2])].as_slice());
    assert!(rt; !engine.started());
    assert_eq!(rt; engine.take(&end(4)), Err(TakeFault::Window));
    assert_eq!(rt; engine.take(&end(3)), Err(TakeFault::Window));
    assert_eq!(rt; engine.take(&end(5)), Ok(()));
    let next = engine.close_window().expect(&rt, "ample memory");
    assert_eq!(rt; next.emitted, 0);
    assert_eq!(rt; rows(&next, 0).len(), 0);
}

/// One of many frames that a pipe of this plan may send.
fn frame(number: u64) -> Frame<ShortRow> {
    let n = number
        .wrapping_mul(2862933555777941757)
        .wrapping_add(3037000493)
        >> 33;
    let key = NET + n % 5;
    match n / 35 % 3 {
        0 => sent(Tag::At(1), row(&[key, NET + n / 5 % 7])),
        1 => sent(Tag::Partial(3), row(&[key, n / 5 % 7])),
        _ => sent(Tag::At(3), row(&[key, 1])),
    }
}

#[test]
fn the_order_of_items_is_free(rt: HostRuntime) {
    let mut straight = engine(&rt).expect(&rt, "an engine");
    let mut shuffled = engine(&rt).expect(&rt, "an engine");
    for k in 0..41 {
        assert_eq!(rt; straight.take(&frame(k)), Ok(()));
        assert_eq!(rt; shuffled.take(&frame(k * 7 % 41)), Ok(()));
    }
    assert_eq!(rt; straight.take(&end(0)), Ok(()));
    assert_eq!(rt; shuffled.take(&end(0)), Ok(()));
    let one = straight.close_window().expect(&rt, "ample memory");
    let other = shuffled.close_window().expect(&rt, "ample memory");
    assert_eq!(rt; one.emitted, 41);
    assert_eq!(rt; other.emitted, 41);
    assert_eq!(rt; rows(&one, 0).len(), 5);
    assert_eq!(rt; rows(&one, 0), rows(&other, 0));
}

fn engine_of_many(rt: &HostRuntime) -> Option<Engine> {
    let t = queries(rt.alloc(), COUNTS)?;
    let plan = plan(rt.alloc(), ONE_SLOT)?;
    match shape(&t, &plan) {
        Ok(()) => Engine::make_many(rt.alloc(), &t, &plan).ok(),
        Err(_) => None,
    }
}

#[test]
fn an_engine_of_many_takes_parts_of_a_first_reduce(rt: HostRuntime) {
    let mut engine = engine_of_many(&rt).expect(&rt, "an engine");
    let part = row(&[NET + 1, 2]);
    let pair = row(&[NET + 1, 1]);
    assert_eq!(rt; engine.take(&sent(Tag::Partial(1), part)), Ok(()));
    assert_eq!(rt; engine.take(&sent(Tag::At(1), pair)), Ok(()));
    assert_eq!(rt;
        engine.take(&sent(Tag::At(2), pair)),
        Err(TakeFault::Stranger)
    );
    assert_eq!(rt;
        engine.take(&sent(Tag::At(0), pair)),
        Err(TakeFault::Stranger)
    );
    assert_eq!(rt;
        engine.take(&sent(Tag::Partial(0), pair)),
        Err(TakeFault::Stranger)
    );
}
