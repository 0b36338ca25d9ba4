//! The header of a capture that is read from a file.
ghost use Rattle.std.specs.Prelude.{◌≡◌, ◌≤◌, ◌⊎◌, ◌↔◌, None, length, take, IfOk, IfSome, IsErrOf, OnErr};
ghost use Rattle.std.specs.FinMap.{get};
ghost use Rattle.sn_io.specs.Counts.{OnlyRises, RoseAt};
ghost use Rattle.sn_io.specs.Inputs.{stated_file};
ghost use Rattle.sn_pcap.specs.Capture.{head_of};

use crate::buffer::read_after;
use crate::header::{HEADER_BYTES, HeadFault, Header, head};
use sn_io::inputs::{InputFault, Inputs};

/// Reads the first bytes of a file, as many as there are and fit, and says how many.
fn read_front<I: Inputs>(bytes: &mut [u8], files: &mut I, name: &str) -> Result<usize, InputFault>
    requires { 1 ≤ length bytes.old }
    ensures within { IfOk result (λ n. n ≤ length bytes.old) }
    ensures bytes { IfOk result (λ n. IfSome (stated_file (I.reported files.old) name.now) (λ file. take n bytes.new ≡ take (length bytes.old) file)) }
    ensures reported { I.reported files.new ≡ I.reported files.old }
    ensures faults { OnlyRises name.now (I.faults files.old) (I.faults files.new) }
    ensures missing { IsErrOf result InputFault.Missing ↔ (get (I.faults files.old) name.now ≡ None) }
    ensures unchanged { IsErrOf result InputFault.Missing → files.new ≡ files.old }
    ensures failed { IsErrOf result InputFault.Failed → RoseAt name.now (I.faults files.old) (I.faults files.new) }
{
    let mut held = 0;
    'reading: loop {
        if held >= bytes.len() {
            return Ok(held);
        }
        match read_after(bytes, held, files, name, held as u64) {
            Ok(0) => return Ok(held),
            Ok(count) => held += count,
            Err(fault) => return Err(fault),
        }
    }
}

/// The header of a capture, or the first of the faults that it has. No more than its first 24 bytes are read, from
/// front to back. `Missing` comes exactly where the name isn't known, and `Failed` only where its count rose.
pub fn read_head<I: Inputs>(
    files: &mut I,
    name: &str,
) -> Result<Result<Header, HeadFault>, InputFault>
    ensures head { IfOk result (λ found. IfSome (stated_file (I.reported files.old) name.now) (λ file. found ≡ head_of file)) }
    ensures reported { I.reported files.new ≡ I.reported files.old }
    ensures faults { OnlyRises name.now (I.faults files.old) (I.faults files.new) }
    ensures missing { IsErrOf result InputFault.Missing ↔ (get (I.faults files.old) name.now ≡ None) }
    ensures unchanged { IsErrOf result InputFault.Missing → files.new ≡ files.old }
    ensures failed { IsErrOf result InputFault.Failed → RoseAt name.now (I.faults files.old) (I.faults files.new) }
{
    let mut bytes = [0; HEADER_BYTES];
    match read_front(&mut bytes, files, name) {
        Ok(count) => {
            let (front, _) = bytes.split_at(count);
            Ok(head(front))
        }
        Err(fault) => Err(fault),
    }
}
