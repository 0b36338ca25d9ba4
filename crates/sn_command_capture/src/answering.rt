//! A way of answering the windows of a capture.
ghost use Rattle.std.specs.Prelude.{◌≡◌, ◌<◌, ℕ, List, [], ◌∷◌, ◌++◌, length, None, IfErr, IfOk, OnOk};
ghost use Rattle.sn_command_capture.specs.Stopping.{IsDue};
ghost use Rattle.sn_command_capture.specs.Wording.{Closed, Holds, HoldsSome, IsCausal, StopsInTime, Wording};
ghost use Rattle.sn_windows.specs.Rising.{AreRising, Window};

use crate::stop::Stop;
use sn_base::memory::Memory;
use sn_base::seq::Seq;
use sn_fields::tuple::Tuple;
use sn_pcap::packet::Ending;

/// A way of answering the windows of a capture, which come one after another. Each is given its tuples in capture order. It is
/// over where the first tuple of a later one comes, or the records end: then its block is given, or it stops. Nothing is called after
/// an error.
pub trait Answering {
    /// How it answers, over all windows of a capture.
    ghost wording: { Self → Wording };

    /// These windows were closed, and no other comes.
    ghost idle: { Self → List Window → Type 0 };

    /// These windows were closed, and of the one with this number these tuples came. At the start none was closed, and none came
    /// of window 0.
    ghost hand: { Self → List Window → ℕ → List (List ℕ) → Type 0 };

    /// What stands before the blocks of all windows.
    fn first(&self) -> Result<Seq<u8>, Memory>
        ensures { IfOk result (λ text. text ≡ (wording self.now).first) };

    /// Takes the next tuple of the current window, which has this number.
    fn packet(&mut self, number: u64, tuple: &Tuple) -> Result<(), Memory>
        requires { Holds (hand self.old) number }
        ensures given { OnOk result ((closed : List Window) (tuples : List (List ℕ)) → hand self.old closed number tuples →
            hand self.new closed number (tuples ++ tuple.now ∷ [])) }
        ensures wording { OnOk result (wording self.new ≡ wording self.old) };

    /// Takes the first tuple of a later window. Closes the current window, and gives its block, or says why there is none.
    fn pass(&mut self, at_hand: u64, number: u64, tuple: &Tuple) -> Result<Seq<u8>, Stop>
        requires hand { HoldsSome (hand self.old) at_hand }
        requires above { at_hand < number }
        ensures text { IfOk result (λ text. (closed : List Window) (tuples : List (List ℕ)) → 0 < length tuples → hand self.old closed at_hand tuples →
            text ≡ (wording self.old).block (closed ++ (at_hand, tuples) ∷ []) at_hand tuples) }
        ensures goes_on { OnOk result ((closed : List Window) (tuples : List (List ℕ)) → 0 < length tuples → hand self.old closed at_hand tuples →
            (wording self.old).stops (closed ++ (at_hand, tuples) ∷ []) at_hand tuples ≡ None) }
        ensures stops { IfErr result (λ stop. (closed : List Window) (tuples : List (List ℕ)) → 0 < length tuples → hand self.old closed at_hand tuples →
            IsDue ((wording self.old).stops (closed ++ (at_hand, tuples) ∷ []) at_hand tuples) stop) }
        ensures begun { OnOk result ((closed : List Window) (tuples : List (List ℕ)) → 0 < length tuples → hand self.old closed at_hand tuples →
            AreRising None ((closed ++ (at_hand, tuples) ∷ []) ++ (number, []) ∷ []) →
            hand self.new (closed ++ (at_hand, tuples) ∷ []) number (tuple.now ∷ [])) }
        ensures wording { OnOk result (wording self.new ≡ wording self.old) };

    /// Closes the current window, which is the last one, and gives its block, or says why there is none.
    fn close(&mut self, number: u64) -> Result<Seq<u8>, Stop>
        requires { HoldsSome (hand self.old) number }
        ensures text { IfOk result (λ text. (closed : List Window) (tuples : List (List ℕ)) → 0 < length tuples → hand self.old closed number tuples →
            text ≡ (wording self.old).block (closed ++ (number, tuples) ∷ []) number tuples) }
        ensures goes_on { OnOk result ((closed : List Window) (tuples : List (List ℕ)) → 0 < length tuples → hand self.old closed number tuples →
            (wording self.old).stops (closed ++ (number, tuples) ∷ []) number tuples ≡ None) }
        ensures stops { IfErr result (λ stop. (closed : List Window) (tuples : List (List ℕ)) → 0 < length tuples → hand self.old closed number tuples →
            IsDue ((wording self.old).stops (closed ++ (number, tuples) ∷ []) number tuples) stop) }
        ensures closed { OnOk result ((closed : List Window) (tuples : List (List ℕ)) → 0 < length tuples → hand self.old closed number tuples →
            idle self.new (closed ++ (number, tuples) ∷ [])) }
        ensures wording { OnOk result (wording self.new ≡ wording self.old) };

    /// What stands of the current window, which has this number, where the capture is refused there.
    fn unfinished(&self, number: u64) -> Result<Seq<u8>, Memory>
        requires { Holds (hand self.now) number }
        ensures { IfOk result (λ text. (closed : List Window) (tuples : List (List ℕ)) → hand self.now closed number tuples →
            text ≡ (wording self.now).unfinished closed number tuples) };

    /// What stands after the blocks of all windows, of which there were this many, where the records end so.
    fn last(&self, windows: u64, ending: Ending) -> Result<Seq<u8>, Memory>
        ensures { IfOk result (λ text. (closed : List Window) → Closed (idle self.now) (hand self.now) closed → windows ≡ length closed →
            text ≡ (wording self.now).last closed ending) };

    /// The block of a window depends on no later one.
    ghost causal: { (a : Self) → IsCausal (wording a) };

    /// Nor does whether it stops, and what was read before the capture is never the reason.
    ghost in_time: { (a : Self) → StopsInTime (wording a) };
}
