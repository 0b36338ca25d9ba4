//! Where bytes go out, with counts of faults.
ghost use Rattle.std.specs.Prelude.{◌≡◌, ℕ, ◌<◌, ◌≤◌, ◌⊎◌, List, Option, length, take, IfOk, IsOk, IsOkAnd, OnOk, OnErr};
ghost use Rattle.std.specs.Io.KnownBytes.{append_known};
ghost use Rattle.sn_io.specs.Counts.{Rose};

/// A write that failed, and took nothing.
#[derive(Clone, Copy, Debug, PartialEq, Eq)]
pub struct Failed;

/// A piece that didn't go out whole.
#[derive(Clone, Copy, Debug, PartialEq, Eq)]
pub struct WriteFault;

/// Where bytes go out. Neither count ever falls.
pub trait Sink {
    /// The bytes that went out, where they are known.
    ghost written: { Self → Option (List ℕ) };

    /// The number of faults.
    ghost faults: { Self → ℕ };

    /// The number of writes that took nothing of a piece that has bytes.
    ghost empty_takes: { Self → ℕ };

    /// Takes a front of the piece, and says how many bytes it has.
    fn write(&mut self, piece: &[u8]) -> Result<usize, Failed>
        ensures within { IfOk result (λ n. n ≤ length piece.now) }
        ensures appended { IfOk result (λ n. written self.new ≡ append_known (written self.old) (take n piece.now)) }
        ensures nothing { OnErr result (written self.new ≡ written self.old) }
        ensures failed { OnErr result (Rose (faults self.old) (faults self.new)) }
        ensures took_none { IfOk result (λ n. n ≡ 0 → 0 < length piece.now → Rose (empty_takes self.old) (empty_takes self.new)) }
        ensures only_empty { empty_takes self.old < empty_takes self.new → IsOkAnd result (λ n. (n ≡ 0) × (0 < length piece.now)) }
        ensures faults { faults self.old ≤ faults self.new }
        ensures empty_takes { empty_takes self.old ≤ empty_takes self.new };
}

/// Writes a whole piece. What went out is always a front of it.
pub fn write_all_to<S: Sink>(sink: &mut S, piece: &[u8]) -> Result<(), WriteFault>
    ensures ok { OnOk result (S.written sink.new ≡ append_known (S.written sink.old) piece.now) }
    ensures err { OnErr result (Rose (S.faults sink.old) (S.faults sink.new) ⊎ Rose (S.empty_takes sink.old) (S.empty_takes sink.new)) }
    ensures whole { ¬ Rose (S.faults sink.old) (S.faults sink.new) → ¬ Rose (S.empty_takes sink.old) (S.empty_takes sink.new) → IsOk result }
    ensures front { (k : ℕ) × (k ≤ length piece.now) × (S.written sink.new ≡ append_known (S.written sink.old) (take k piece.now)) }
    ensures faults { S.faults sink.old ≤ S.faults sink.new }
    ensures empty_takes { S.empty_takes sink.old ≤ S.empty_takes sink.new }
{
    let mut done = 0;
    while done < piece.len() {
        match sink.write(&piece[done..]) {
            Ok(0) => return Err(WriteFault),
            Ok(taken) => done += taken,
            Err(_) => return Err(WriteFault),
        }
    }
    Ok(())
}
