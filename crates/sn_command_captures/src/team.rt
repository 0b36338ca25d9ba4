//! What answers the windows of several captures.
ghost use Rattle.std.specs.Prelude.{◌≡◌, ℕ, List, [], ◌∷◌, ◌++◌, Some, IfOk, OnOk, length, map};
ghost use Rattle.std.specs.List.{AllByRecursion};
ghost use Rattle.sn_command_captures.specs.Answered.{JointWording, Shared, ending_of, windows_in};
ghost use Rattle.sn_command_captures.specs.Counted.{left_of};
ghost use Rattle.sn_command_captures.specs.Shares.{IsSound};
ghost use Rattle.sn_windows.specs.Windows.{in_window};
ghost use Rattle.sn_windows_together.specs.Merging.{after_window, next_in};

use crate::share::Share;
use sn_base::memory::Memory;
use sn_base::seq::Seq;

/// What answers the windows that several captures have together, one after another by rising number. Each is given the records that the
/// switches saw in it. Running out of memory is the one error; nothing is called after it.
pub trait Team {
    /// How it answers, over all windows of the captures.
    ghost wording: { Self → JointWording };

    /// Of all these windows these were answered.
    ghost answered: { Self → List Shared → List Shared → Type 0 };

    /// Takes the records of the first window that is left, which has this number, and gives its block.
    fn window(&mut self, number: u64, shares: &mut [Share]) -> Result<Seq<u8>, Memory>
        requires sound { AllByRecursion IsSound shares.old }
        requires next { next_in (map left_of shares.old) ≡ Some number }
        requires stands { (all : List Shared) × (done : List Shared) × answered self.old all done × (all ≡ done ++ windows_in shares.old) }
        ensures text { IfOk result (λ text. (all done : List Shared) → answered self.old all done → all ≡ done ++ windows_in shares.old →
            text ≡ (wording self.old).block all (number, map (in_window number) (map left_of shares.old))) }
        ensures answered { OnOk result ((all done : List Shared) → answered self.old all done → all ≡ done ++ windows_in shares.old →
            answered self.new all (done ++ (number, map (in_window number) (map left_of shares.old)) ∷ [])) }
        ensures left { OnOk result (map left_of shares.new ≡ map (after_window number) (map left_of shares.old)) }
        ensures sound { OnOk result (AllByRecursion IsSound shares.new) }
        ensures endings { OnOk result (map ending_of shares.new ≡ map ending_of shares.old) }
        ensures wording { OnOk result (wording self.new ≡ wording self.old) };

    /// What stands after the blocks of all windows, of which there were this many.
    fn last(&self, windows: u64, shares: &[Share]) -> Result<Seq<u8>, Memory>
        ensures { IfOk result (λ text. (all : List Shared) → answered self.now all all → windows ≡ length all →
            text ≡ (wording self.now).last all (map ending_of shares.now)) };
}
