//! Several switches that answer as one.
ghost use Rattle.std.specs.Prelude.{◌≡◌, IfSome, length};
ghost use Rattle.sn_engine_many.specs.declared.phase.Phase.TheVariants as Phase;

use crate::texts::{
    COUNTS, DISTINCT, FIVE, NET, ONE_SLOT, REFINED, TWO_LEVELS, fitting_of, row, rows, syn,
};
use sn_engine_many::many::Many;
use std::test::Fail;

/// Two switches of these texts. `None` where one of them isn't read, or the plan doesn't fit.
fn two_switches(rt: &HostRuntime, queries_text: &[u8], plan_text: &[u8]) -> Option<Many>
    ensures phase { IfSome result (λ many. many.phase ≡ Phase.Between) }
    ensures count { IfSome result (λ many. length many.switches.items ≡ 2) }
{
    let fitting = fitting_of(rt.alloc(), queries_text, FIVE, plan_text)?;
    match Many::make(&fitting.typed, &fitting.switch, &fitting.plan, 2) {
        Ok(many) => Some(many),
        Err(_) => None,
    }
}

#[test]
fn switches_sum_as_one(rt: HostRuntime) -> Result<(), Fail> {
    let mut many = two_switches(&rt, COUNTS, ONE_SLOT).expect(&rt, "a plan that fits");
    many.begin(0)?;
    many.packet(1, &syn(9, 1))?;
    many.packet(0, &syn(9, 1))?;
    many.packet(1, &syn(9, 2))?;
    many.packet(1, &syn(9, 3))?;
    many.packet(0, &syn(9, 2))?;
    let answers = many.close_window()?;
    assert_eq!(rt; answers.window, 0);
    assert_eq!(rt; answers.emitted, 5);
    let expected = [row(&[NET + 1, 2]), row(&[NET + 2, 2]), row(&[NET + 3, 1])];
    assert_eq!(rt; rows(&answers, 0), &expected[..]);
    Ok(())
}

#[test]
fn switches_find_rows_once(rt: HostRuntime) {
    let mut many = two_switches(&rt, DISTINCT, ONE_SLOT).expect(&rt, "a plan that fits");
    assert!(rt; many.begin(0).is_ok());
    assert!(rt; many.packet(0, &syn(9, 1)).is_ok());
    assert!(rt; many.packet(0, &syn(9, 2)).is_ok());
    assert!(rt; many.packet(1, &syn(9, 1)).is_ok());
    assert!(rt; many.packet(1, &syn(9, 2)).is_ok());
    assert!(rt; many.packet(1, &syn(9, 3)).is_ok());
    let answers = many.close_window().expect(&rt, "ample memory");
    assert_eq!(rt; answers.emitted, 5);
    let expected = [row(&[NET + 1]), row(&[NET + 2]), row(&[NET + 3])];
    assert_eq!(rt; rows(&answers, 0), &expected[..]);
}

/// No switch alone has two packets to 10.0.0.9 in a window.
#[test]
fn switches_refine_as_one(rt: HostRuntime) -> Result<(), Fail> {
    let mut many = two_switches(&rt, REFINED, TWO_LEVELS).expect(&rt, "a plan that fits");
    many.begin(0)?;
    many.packet(0, &syn(1, 9))?;
    many.packet(1, &syn(1, 9))?;
    let first = many.close_window()?;
    assert_eq!(rt; first.emitted, 2);
    assert_eq!(rt; rows(&first, 0), &[row(&[NET, 2])][..]);
    assert!(rt; rows(&first, 1).is_empty());
    many.begin(1)?;
    many.packet(0, &syn(1, 9))?;
    many.packet(1, &syn(1, 9))?;
    let second = many.close_window()?;
    assert_eq!(rt; second.emitted, 4);
    assert_eq!(rt; rows(&second, 1), &[row(&[NET + 9, 2])][..]);
    Ok(())
}
