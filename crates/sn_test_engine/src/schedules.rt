//! A plan at two levels, driven by draws.
ghost use Rattle.std.specs.Prelude.{OnOk};
ghost use Rattle.sn_core.specs.Standing.{IsNet, IsNoEarlier};
ghost use Rattle.sn_core_net.specs.Nets.{state, works};

use crate::nets::net;
use crate::texts::{NET, REFINED, TWO_LEVELS, row, rows, syn};
use sn_base::memory::Memory;
use sn_base::seq::Seq;
use sn_core::supply::{Supply, Window};
use sn_core_drive::driving::advance;
use sn_core_drive::note::Note;
use sn_core_net::net::Net;
use sn_fields::tuple::Tuple;
use sn_gen::draws::Draws;
use sn_types::answers::Answers;
use std::alloc::Global;

/// Gives a supply to a net that wants one, and lets it go on. `None` where it wants none.
fn go_on(
    alloc: Global,
    net: &mut Net,
    draws: &mut Draws,
    next: Supply<Tuple>,
) -> Result<Option<Answers>, Memory>
    requires stands { IsNet (works net.old) (state net.old) }
    requires rises { IsNoEarlier next (state net.old).window }
    ensures stands { OnOk result (IsNet (works net.new) (state net.new)) }
{
    if !net.wants() || net.waiting.is_some() {
        return Ok(None);
    }
    let notes = advance(alloc, net, draws, next)?;
    Ok(reported(notes.up_to_answers()))
}

/// The answers among notes.
fn reported(notes: Seq<Note>) -> Option<Answers> {
    let mut notes = notes;
    for _ in 0..1000 {
        match notes.pop() {
            Some(Note::Reported(answers)) => return Some(answers),
            Some(Note::Happened(_)) => (),
            None => return None,
        }
    }
    None
}

/// Gives a SYN of a window that is no earlier than the current one.
fn give_syn(
    alloc: Global,
    net: &mut Net,
    draws: &mut Draws,
    number: u64,
) -> Result<Option<Answers>, Memory>
    requires stands { IsNet (works net.old) (state net.old) }
    ensures stands { OnOk result (IsNet (works net.new) (state net.new)) }
{
    let tuple = syn(1, 9);
    match net.window {
        Window::Idle => go_on(alloc, net, draws, Supply::Numbered(number, tuple)),
        Window::Begun(begun) => {
            if number < begun {
                return Ok(None);
            }
            go_on(alloc, net, draws, Supply::Numbered(number, tuple))
        }
        Window::Closed(_) => go_on(alloc, net, draws, Supply::Numbered(number, tuple)),
    }
}

fn give_end(alloc: Global, net: &mut Net, draws: &mut Draws) -> Result<Option<Answers>, Memory>
    requires stands { IsNet (works net.old) (state net.old) }
{
    match net.window {
        Window::Idle => go_on(alloc, net, draws, Supply::End),
        Window::Begun(_) => go_on(alloc, net, draws, Supply::End),
        Window::Closed(_) => go_on(alloc, net, draws, Supply::End),
    }
}

/// The answers of two windows with two packets each, under a schedule.
fn two_windows(
    rt: &HostRuntime,
    schedule: u64,
) -> Result<(Option<Answers>, Option<Answers>), Memory> {
    let alloc = rt.alloc();
    let mut draws = Draws { number: schedule };
    match net(rt, REFINED, TWO_LEVELS, 64) {
        Some(mut net) => {
            let _ = give_syn(alloc, &mut net, &mut draws, 0)?;
            let _ = give_syn(alloc, &mut net, &mut draws, 0)?;
            let first = give_syn(alloc, &mut net, &mut draws, 1)?;
            let _ = give_syn(alloc, &mut net, &mut draws, 1)?;
            let second = give_end(alloc, &mut net, &mut draws)?;
            Ok((first, second))
        }
        None => Ok((None, None)),
    }
}

#[test]
fn every_schedule_gives_the_answers(rt: HostRuntime) {
    for schedule in [0, 1, 7] {
        let (first, second) = two_windows(&rt, schedule).expect(&rt, "ample memory");
        let first = first.expect(&rt, "the first window");
        assert_eq!(rt; first.window, 0);
        assert_eq!(rt; first.emitted, 2);
        assert_eq!(rt; rows(&first, 0), &[row(&[NET, 2])][..]);
        assert!(rt; rows(&first, 1).is_empty());
        let second = second.expect(&rt, "the second window");
        assert_eq!(rt; second.window, 1);
        assert_eq!(rt; second.emitted, 4);
        assert_eq!(rt; rows(&second, 0), &[row(&[NET, 2])][..]);
        assert_eq!(rt; rows(&second, 1), &[row(&[NET + 9, 2])][..]);
    }
}
