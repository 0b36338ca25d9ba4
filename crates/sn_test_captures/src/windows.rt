//! The numbers of windows.
use sn_windows::windows::{TooMany, Windows};

#[test]
fn begins_windows_at_the_first_time(rt: HostRuntime) {
    let mut windows = Windows::new(1_000_000_000);
    assert_eq!(rt; windows.next_number(5_000_000_000), Ok(0));
    assert_eq!(rt; windows.next_number(5_999_999_999), Ok(0));
    // a record exactly at a window's end is in the next one
    assert_eq!(rt; windows.next_number(6_000_000_000), Ok(1));
    // an earlier time counts in the window that stands
    assert_eq!(rt; windows.next_number(4_000_000_000), Ok(1));
    assert_eq!(rt; windows.next_number(9_500_000_000), Ok(4));
    assert_eq!(rt; windows.number(), 4);
}

#[test]
fn counts_the_records_of_one_window(rt: HostRuntime) {
    let mut windows = Windows::new(1);
    for _ in 0..4_194_304 {
        assert_eq!(rt; windows.next_number(7), Ok(0));
    }
    assert_eq!(rt; windows.next_number(7), Err(TooMany));
    assert_eq!(rt; windows.next_number(7), Err(TooMany));
    // the next window begins anew
    assert_eq!(rt; windows.next_number(8), Ok(1));
}
