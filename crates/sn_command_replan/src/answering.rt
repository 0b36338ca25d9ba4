//! The windows of a capture, each along the plan of its epoch.
ghost use Rattle.std.specs.Prelude.{◌≡◌, ◌++◌, ◌∷◌, [], ◌<◌, ◌≤◌, ℕ, List, None, length, IfErr, IfOk, OnOk};
ghost use Rattle.sn_command_capture.specs.Stopping.{IsDue};
ghost use Rattle.sn_command_capture.specs.Wording.{HoldsSome};
ghost use Rattle.sn_command_replan.specs.Replan.{Followed, replan_wording};
ghost use Rattle.sn_command_replan.specs.Working.{IsAnswered, IsAtHand, IsClosed, followed};
ghost use Rattle.sn_plan_fit.specs.Fits.{Fits};
ghost use Rattle.sn_switch.specs.Texts.{IsSwitch};
ghost use Rattle.sn_windows.specs.Blocks.{most_records};
ghost use Rattle.sn_windows.specs.Rising.{AreRising, Window};

use crate::planned::planned;
use crate::replanning::Replanning;
use crate::text::epoch_text;
use sn_base::bytes::push_bytes;
use sn_base::memory::Memory;
use sn_base::seq::Seq;
use sn_command_capture::answering::Answering;
use sn_command_capture::lines::last_lines;
use sn_command_capture::stop::Stop;
use sn_command_live::certified::Certified;
use sn_command_run::windows::sum_of;
use sn_fields::tuple::Tuple;
use sn_out::block::block;
use sn_pcap::packet::Ending;
use sn_replan::epochs::Epochs;
use std::mem;

impl Replanning {
    /// A plan that fits, before any window. A window is over where more than `most` of its items leave the switch before their cut. A
    /// search may expand this many nodes.
    pub fn make(certified: Certified, most: u64, nodes: u32) -> Result<Replanning, Memory>
        requires switch { IsSwitch certified.limits }
        requires fits { Fits certified.typed.queries certified.limits certified.certificate.plan.entries }
        ensures followed { IfOk result (λ a. followed a ≡
            record { queries = certified.typed.queries; limits = certified.limits; nodes = nodes; most = most; first = certified.certificate }) }
        ensures begun { IfOk result (λ a. IsAtHand a [] 0 []) }
    {
        let alloc = certified.typed.alloc;
        let plan = &certified.certificate.plan;
        let epochs = Epochs::make(&certified.typed, &certified.limits, plan, most)?;
        Ok(Replanning {
            alloc,
            typed: certified.typed,
            limits: certified.limits,
            nodes,
            first: certified.certificate,
            epochs,
            number: 0,
            heading: Seq::new(alloc),
            tuples: Seq::new(alloc),
            refused: None,
            emitted: 0,
        })
    }

    /// Answers the current window, which has this number. Says whether it is over.
    fn end(&mut self, number: u64) -> Result<(Seq<u8>, bool), Stop>
        requires { HoldsSome (IsAtHand self.old) number }
        ensures text { IfOk result (λ both. (closed : List Window) (tuples : List (List ℕ)) → 0 < length tuples → IsAtHand self.old closed number tuples →
            both.0 ≡ (replan_wording (followed self.old)).block (closed ++ (number, tuples) ∷ []) number tuples) }
        ensures goes_on { OnOk result ((closed : List Window) (tuples : List (List ℕ)) → 0 < length tuples → IsAtHand self.old closed number tuples →
            (replan_wording (followed self.old)).stops (closed ++ (number, tuples) ∷ []) number tuples ≡ None) }
        ensures stops { IfErr result (λ stop. (closed : List Window) (tuples : List (List ℕ)) → 0 < length tuples → IsAtHand self.old closed number tuples →
            IsDue ((replan_wording (followed self.old)).stops (closed ++ (number, tuples) ∷ []) number tuples) stop) }
        ensures answered { IfOk result (λ both. (closed : List Window) (tuples : List (List ℕ)) → 0 < length tuples → IsAtHand self.old closed number tuples →
            IsAnswered (followed self.old) self.new closed number tuples both.1) }
        ensures followed { OnOk result (followed self.new ≡ followed self.old) }
    {
        if let Some(fault) = self.refused {
            return Err(Stop::Refused(fault));
        }
        let closed = self.epochs.window(number, self.tuples.as_slice())?;
        self.emitted = sum_of(self.emitted, closed.answers.emitted)?;
        let mut text = mem::replace(&mut self.heading, Seq::new(self.alloc)).into_vec();
        let lines = block(self.alloc, &self.typed, &closed.answers, true)?;
        push_bytes(&mut text, lines.as_slice())?;
        Ok((Seq::from_vec(text), closed.over))
    }

    /// Where the window that was answered is over, searches for the next plan on its tuples, and puts that in place.
    fn plan_next(&mut self, number: u64, over: bool) -> Result<(), Memory>
        requires switch { IsSwitch self.old.limits }
        requires some { 0 < length self.old.tuples }
        requires few { length self.old.tuples ≤ most_records }
        ensures closed { OnOk result ((f : Followed) (closed : List Window) (tuples : List (List ℕ)) → followed self.old ≡ f →
            IsAnswered f self.old closed number tuples over → IsClosed f self.new (closed ++ (number, tuples) ∷ []) number) }
        ensures followed { OnOk result (followed self.new ≡ followed self.old) }
    {
        if !over {
            return Ok(());
        }
        let tuples = mem::replace(&mut self.tuples, Seq::new(self.alloc));
        match planned(
            self.alloc,
            &self.typed,
            &self.limits,
            self.nodes,
            number,
            tuples,
        )? {
            Ok(certificate) => {
                self.epochs
                    .renew(&self.typed, &self.limits, &certificate.plan)?;
                self.number = sum_of(self.number, 1)?;
                self.heading = epoch_text(self.alloc, self.number, &certificate)?;
            }
            Err(fault) => self.refused = Some(fault),
        }
        Ok(())
    }

    /// Takes the first tuple of a window.
    fn begin(&mut self, tuple: &Tuple) -> Result<(), Memory>
        ensures begun { OnOk result ((f : Followed) (closed : List Window) (at_hand number : ℕ) → followed self.old ≡ f → IsClosed f self.old closed at_hand →
            at_hand < number → AreRising None (closed ++ (number, []) ∷ []) → IsAtHand self.new closed number (tuple.now ∷ [])) }
        ensures followed { followed self.new ≡ followed self.old }
    {
        tuple.widths();
        self.tuples = Seq::new(self.alloc);
        self.tuples.push(*tuple)?;
        Ok(())
    }
}

impl Answering for Replanning {
    ghost use Rattle.sn_command_replan.specs.Causal.{replan_is_causal, replan_stops_in_time};
    ghost use Rattle.sn_command_replan.specs.Replan.{replan_wording};
    ghost use Rattle.sn_command_replan.specs.Working.{IsAtHand, IsIdle, followed};

    ghost wording = { λ a. replan_wording (followed a) };

    ghost idle = { λ a closed. IsIdle a closed };

    ghost hand = { λ a closed number tuples. IsAtHand a closed number tuples };

    fn first(&self) -> Result<Seq<u8>, Memory> {
        Ok(Seq::new(self.alloc))
    }

    fn packet(&mut self, _: u64, tuple: &Tuple) -> Result<(), Memory> {
        tuple.widths();
        self.tuples.push(*tuple)?;
        Ok(())
    }

    fn pass(&mut self, at_hand: u64, number: u64, tuple: &Tuple) -> Result<Seq<u8>, Stop> {
        let (text, over) = self.end(at_hand)?;
        self.plan_next(at_hand, over)?;
        self.begin(tuple)?;
        Ok(text)
    }

    fn close(&mut self, number: u64) -> Result<Seq<u8>, Stop> {
        let (text, _) = self.end(number)?;
        Ok(text)
    }

    fn unfinished(&self, _: u64) -> Result<Seq<u8>, Memory> {
        Ok(Seq::new(self.alloc))
    }

    fn last(&self, windows: u64, ending: Ending) -> Result<Seq<u8>, Memory> {
        last_lines(self.alloc, ending, windows, Some(self.emitted))
    }

    ghost causal = { λ a. replan_is_causal (followed a) };

    ghost in_time = { λ a. replan_stops_in_time (followed a) };
}
