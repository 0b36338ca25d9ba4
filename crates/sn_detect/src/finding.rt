//! The stays of addresses, found in what the windows hold.
ghost use Rattle.std.specs.Prelude.{◌≡◌, ◌++◌, [], map, reverse, IfOk, OnOk};
ghost use Rattle.sn_base.specs.Sorted.{sorted_rows};
ghost use Rattle.sn_detect.specs.Finding.{address_in, begun, event, events_of, found_on, from_window, look_events, meets, stays_of, reported_in};
ghost use Rattle.sn_detect.specs.Finding.{with_event, with_held, with_reported};

use crate::look::Look;
use crate::stay::Stay;
use sn_base::memory::Memory;
use sn_base::seq::Seq;
use sn_base::short_row::ShortRow;
use sn_refine::members::column;
use std::alloc::Global;

/// How many numbers have 64 bits.
const WORD: u128 = 1 << 64;

/// An address in a window, and 0 where it is of the refined answers, 1 where it is of the unrefined ones. The address stands as two
/// numbers of 64 bits.
fn event(window: u64, kind: u64, address: u128) -> ShortRow
    ensures { result ≡ event window kind address }
{
    let mut row = ShortRow::empty();
    row.push((address / WORD) as u64);
    row.push((address % WORD) as u64);
    row.push(window);
    row.push(kind);
    row
}

/// The address of an event.
fn address_in(event: &ShortRow) -> u128
    ensures { result ≡ address_in event.now }
{
    u128::from(column(event, 0)) * WORD + u128::from(column(event, 1))
}

/// Adds an event of each of these addresses.
fn add_events(
    events: &mut Seq<ShortRow>,
    window: u64,
    kind: u64,
    addresses: &[u128],
) -> Result<(), Memory>
    ensures { OnOk result (events.new ≡ events.old ++ map (event window kind) addresses.now) }
{
    for address in addresses {
        events.push(event(window, kind, *address))?;
    }
    Ok(())
}

/// Adds the events of a window.
fn add_look(events: &mut Seq<ShortRow>, look: &Look) -> Result<(), Memory>
    ensures { OnOk result (events.new ≡ events.old ++ look_events look.now) }
{
    add_events(events, look.window, 1, look.unrefined.as_slice())?;
    add_events(events, look.window, 0, look.refined.as_slice())
}

/// The events of windows.
fn events_of(alloc: Global, looks: &[Look]) -> Result<Seq<ShortRow>, Memory>
    ensures { IfOk result (λ events. events ≡ events_of looks.now) }
{
    let mut events = Seq::new(alloc);
    for look in looks {
        add_look(&mut events, look)?;
    }
    Ok(events)
}

/// Events in order.
fn sorted(events: Seq<ShortRow>) -> Result<Seq<ShortRow>, Memory>
    ensures { IfOk result (λ sorted. sorted ≡ sorted_rows events) }
{
    let mut rows = events.into_vec();
    rows.sort()?;
    Ok(Seq::from_vec(rows))
}

/// A stay of one window.
fn begun(address: u128, window: u64) -> Stay
    ensures { result ≡ begun address window }
{
    Stay {
        address,
        first: window,
        last: window,
        printed: None,
    }
}

/// Whether a stay of this address begins in this window or in the next one.
fn meets(address: u128, window: u64, stay: Stay) -> bool
    ensures { result ≡ meets address window stay }
{
    stay.address == address && window <= stay.first && stay.first - window <= 1
}

/// The same stay, where it begins in this window.
fn from_window(window: u64, stay: Stay) -> Stay
    ensures { result ≡ from_window window stay }
{
    Stay {
        address: stay.address,
        first: window,
        last: stay.last,
        printed: stay.printed,
    }
}

/// The same stay, where it was printed in this window.
fn reported_in(window: u64, stay: Stay) -> Stay
    ensures { result ≡ reported_in window stay }
{
    Stay {
        address: stay.address,
        first: stay.first,
        last: stay.last,
        printed: Some(window),
    }
}

/// Takes an address that is held in a window before all that was taken.
fn take_held(stays: &mut Seq<Stay>, address: u128, window: u64) -> Result<(), Memory>
    ensures { OnOk result (reverse stays.new ≡ with_held address window (reverse stays.old)) }
{
    match stays.pop() {
        None => stays.push(begun(address, window)),
        Some(stay) => {
            if meets(address, window, stay) {
                stays.push(from_window(window, stay))
            } else {
                stays.push(stay)?;
                stays.push(begun(address, window))
            }
        }
    }
}

/// Takes an address that is reported in a window before all that was taken.
fn take_reported(stays: &mut Seq<Stay>, address: u128, window: u64) -> Result<(), Memory>
    ensures { OnOk result (reverse stays.new ≡ with_reported address window (reverse stays.old)) }
{
    match stays.pop() {
        None => Ok(()),
        Some(stay) => {
            if stay.address == address && stay.first == window {
                stays.push(reported_in(window, stay))
            } else {
                stays.push(stay)
            }
        }
    }
}

/// Takes an event that is before all that were taken.
fn take(stays: &mut Seq<Stay>, event: &ShortRow) -> Result<(), Memory>
    ensures { OnOk result (reverse stays.new ≡ with_event event.now (reverse stays.old)) }
{
    let address = address_in(event);
    let window = column(event, 2);
    if column(event, 3) == 0 {
        take_reported(stays, address, window)
    } else {
        take_held(stays, address, window)
    }
}

/// The stays of events in order, the last one first.
fn found(alloc: Global, events: Seq<ShortRow>) -> Result<Seq<Stay>, Memory>
    ensures { IfOk result (λ stays. reverse stays ≡ found_on events []) }
{
    let mut events = events;
    let mut stays = Seq::new(alloc);
    'events: loop {
        match events.pop() {
            Some(event) => take(&mut stays, &event)?,
            None => return Ok(stays),
        }
    }
}

/// The same stays, the first one first.
fn reversed(stays: Seq<Stay>) -> Seq<Stay>
    ensures { result ≡ reverse stays }
{
    let mut stays = stays.into_vec();
    stays.reverse();
    Seq::from_vec(stays)
}

/// The stays of all addresses over windows, by address and then by window.
pub fn stays_of(alloc: Global, looks: &[Look]) -> Result<Seq<Stay>, Memory>
    ensures { IfOk result (λ stays. stays ≡ stays_of looks.now) }
{
    let events = sorted(events_of(alloc, looks)?)?;
    let stays = found(alloc, events)?;
    Ok(reversed(stays))
}
