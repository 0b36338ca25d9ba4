//! Windows of records, numbered by time.
ghost use Rattle.std.specs.Prelude.{◌≡◌, ◌+◌, ◌*◌, ◌↔◌, ◌≤◌, ◌<◌, IfOk, OnOk, OnErr, IsErr};
ghost use Rattle.std.specs.Option.{ForNone, ForSome};
ghost use Rattle.sn_windows.specs.Blocks.{most_records};

/// A window with too many records.
#[derive(Clone, Copy, Debug, PartialEq, Eq)]
pub struct TooMany;

/// The most records of one window.
pub const MOST_RECORDS: u64 = 4194304;

/// Numbers records by their times, one after another.
#[derive(Clone, Copy, Debug)]
pub struct Windows {
    pub(crate) window_ns: u64,
    pub(crate) first: Option<u64>,
    pub(crate) number: u64,
    pub(crate) count: u64,
    /// A record before this time, in nanoseconds, is in the current window. 0 before any record.
    pub(crate) end: u64,
    ghost some: { 1 ≤ window_ns },
    ghost few: { count ≤ most_records },
    ghost unbegun: { ForNone first (end ≡ 0) },
    ghost at_hand: { ForSome first (λ time. end ≤ time + (number + 1) * window_ns) },
}

/// When the window of this number ends, in nanoseconds, or the last time that there is where it ends later.
fn end_of(first: u64, number: u64, window_ns: u64) -> u64
    ensures { result ≤ first + (number + 1) * window_ns }
{
    first.saturating_add(number.saturating_add(1).saturating_mul(window_ns))
}

impl Windows {
    ghost use Rattle.sn_windows.specs.Numbering.{next_number, next_count, stepped, begun, begun_at};
    ghost use Rattle.sn_windows.specs.NumberingOf.{numbering};

    /// Windows of this many nanoseconds. The first record's time begins window 0.
    pub fn new(window_ns: u64) -> Windows
        requires { 1 ≤ window_ns }
        ensures { numbering result ≡ begun window_ns }
    {
        Windows {
            window_ns,
            first: None,
            number: 0,
            count: 0,
            end: 0,
        }
    }

    /// Windows of this many nanoseconds. This time begins window 0.
    pub fn starting(t0: u64, window_ns: u64) -> Windows
        requires { 1 ≤ window_ns }
        ensures { numbering result ≡ begun_at t0 window_ns }
    {
        Windows {
            window_ns,
            first: Some(t0),
            number: 0,
            count: 0,
            end: 0,
        }
    }

    /// The number of the last record's window, 0 before any record.
    pub fn number(&self) -> u64
        ensures { result ≡ self.now.number }
    {
        self.number
    }

    /// The number of the window of the next record: the greatest over it and all records before it.
    /// `TooMany` exactly where that window has [`MOST_RECORDS`] records without this one.
    pub fn next_number(&mut self, time: u64) -> Result<u64, TooMany>
        ensures number { IfOk result (λ n. n ≡ next_number (numbering self.old) time) }
        ensures after { OnOk result (numbering self.new ≡ stepped (numbering self.old) time) }
        ensures too_many { IsErr result ↔ (most_records ≤ next_count (numbering self.old) time) }
        ensures unchanged { OnErr result (numbering self.new ≡ numbering self.old) }
    {
        if time < self.end {
            return self.count_one();
        }
        let first = self.first.unwrap_or(time);
        let number = self.number.max(time.saturating_sub(first) / self.window_ns);
        if self.first.is_some() && number == self.number {
            return self.count_one();
        }
        *self = Windows {
            window_ns: self.window_ns,
            first: Some(first),
            number,
            count: 1,
            end: end_of(first, number, self.window_ns),
        };
        Ok(number)
    }

    /// One more record of the current window, with its number. `TooMany` exactly where it has as many as it may.
    fn count_one(&mut self) -> Result<u64, TooMany>
        ensures number { IfOk result (λ n. n ≡ self.old.number) }
        ensures after { OnOk result (numbering self.new ≡ record (numbering self.old) { count = self.old.count + 1 }) }
        ensures too_many { IsErr result ↔ (most_records ≤ self.old.count) }
        ensures unchanged { OnErr result (numbering self.new ≡ numbering self.old) }
    {
        if self.count >= MOST_RECORDS {
            return Err(TooMany);
        }
        self.count += 1;
        Ok(self.number)
    }
}
