//! Refined queries are watched over the windows of a capture.
ghost use Rattle.std.specs.Prelude.{◌≡◌, ◌++◌, ◌∷◌, [], ◌<◌, ℕ, List, None, length, IfOk, OnOk};
ghost use Rattle.sn_command_capture.specs.Wording.{Holds};
ghost use Rattle.sn_command_detect.specs.Detected.{detect_lines};
ghost use Rattle.sn_command_detect.specs.Watching.{IsAtHand, IsIdle};
ghost use Rattle.sn_plan_fit.specs.Fits.{HasShape};
ghost use Rattle.sn_windows.specs.Rising.{AreRising, Window};

use crate::giving::give;
use crate::making::detects;
use crate::text::push_detects;
use crate::watch::Watch;
use sn_base::bytes::push_bytes;
use sn_base::memory::Memory;
use sn_base::seq::Seq;
use sn_command_capture::answering::Answering;
use sn_command_capture::lines::last_lines;
use sn_command_capture::stop::Stop;
use sn_fields::tuple::Tuple;
use sn_pcap::packet::Ending;
use sn_plan_grammar::plan::Plan;
use sn_types::typed::Typed;
use std::alloc::Global;

impl Watch {
    /// A plan of the shape of the queries, before any window.
    pub fn make(alloc: Global, typed: Typed, plan: Plan) -> Result<Watch, Memory>
        requires { HasShape typed.queries plan.entries }
        ensures queries { IfOk result (λ a. a.typed.queries ≡ typed.queries) }
        ensures entries { IfOk result (λ a. a.plan.entries ≡ plan.entries) }
        ensures begun { IfOk result (λ a. IsAtHand a [] 0 []) }
    {
        let detects = detects(alloc, &typed, plan.entries.as_slice())?;
        Ok(Watch {
            alloc,
            typed,
            plan,
            detects,
            tuples: Seq::new(alloc),
        })
    }

    /// Takes the next tuple of the current window.
    fn take(&mut self, tuple: &Tuple) -> Result<(), Memory>
        ensures taken { OnOk result ((closed : List Window) (number : ℕ) (tuples : List (List ℕ)) → IsAtHand self.old closed number tuples →
            IsAtHand self.new closed number (tuples ++ tuple.now ∷ [])) }
        ensures queries { self.new.typed.queries ≡ self.old.typed.queries }
        ensures entries { self.new.plan.entries ≡ self.old.plan.entries }
    {
        tuple.widths();
        self.tuples.push(*tuple)?;
        Ok(())
    }

    /// Closes the current window.
    fn end(&mut self, number: u64) -> Result<(), Memory>
        requires { Holds (IsAtHand self.old) number }
        ensures closed { OnOk result ((closed : List Window) (tuples : List (List ℕ)) → IsAtHand self.old closed number tuples →
            IsIdle self.new (closed ++ (number, tuples) ∷ [])) }
        ensures queries { self.new.typed.queries ≡ self.old.typed.queries }
        ensures entries { self.new.plan.entries ≡ self.old.plan.entries }
    {
        give(&mut self.detects, number, self.tuples.as_slice())?;
        Ok(())
    }

    /// Begins a window, whose number is above those before.
    fn begin(&mut self)
        ensures begun { (closed : List Window) (number : ℕ) → IsIdle self.old closed → AreRising None (closed ++ (number, []) ∷ []) →
            IsAtHand self.new closed number [] }
        ensures queries { self.new.typed.queries ≡ self.old.typed.queries }
        ensures entries { self.new.plan.entries ≡ self.old.plan.entries }
    {
        self.tuples.clear();
    }

    /// The lines after the last window.
    fn lines(&self, windows: u64, ending: Ending) -> Result<Seq<u8>, Memory>
        ensures { IfOk result (λ text. (closed : List Window) → IsIdle self.now closed → windows ≡ length closed →
            text ≡ detect_lines self.now.typed.queries self.now.plan.entries closed ending) }
    {
        let mut text = Vec::new(self.alloc);
        push_detects(&mut text, &self.detects)?;
        let last = last_lines(self.alloc, ending, windows, None)?;
        push_bytes(&mut text, last.as_slice())?;
        Ok(Seq::from_vec(text))
    }
}

impl Answering for Watch {
    ghost use Rattle.std.specs.Prelude.{refl};
    ghost use Rattle.sn_command_capture.specs.Unstopped.{never_stopped};
    ghost use Rattle.sn_command_detect.specs.Detected.{detect_wording};
    ghost use Rattle.sn_command_detect.specs.Watching.{IsAtHand, IsIdle};

    ghost wording = { λ a. detect_wording a.typed.queries a.plan.entries };

    ghost idle = { λ a closed. IsIdle a closed };

    ghost hand = { λ a closed number tuples. IsAtHand a closed number tuples };

    fn first(&self) -> Result<Seq<u8>, Memory> {
        Ok(Seq::new(self.alloc))
    }

    fn packet(&mut self, _: u64, tuple: &Tuple) -> Result<(), Memory> {
        self.take(tuple)
    }

    fn pass(&mut self, at_hand: u64, _: u64, tuple: &Tuple) -> Result<Seq<u8>, Stop> {
        self.end(at_hand)?;
        self.begin();
        self.take(tuple)?;
        Ok(Seq::new(self.alloc))
    }

    fn close(&mut self, number: u64) -> Result<Seq<u8>, Stop> {
        self.end(number)?;
        Ok(Seq::new(self.alloc))
    }

    fn unfinished(&self, _: u64) -> Result<Seq<u8>, Memory> {
        Ok(Seq::new(self.alloc))
    }

    fn last(&self, windows: u64, ending: Ending) -> Result<Seq<u8>, Memory> {
        self.lines(windows, ending)
    }

    ghost causal = { λ a closed number tuples more rising. refl };

    ghost in_time = { λ a. never_stopped (detect_wording a.typed.queries a.plan.entries) (λ windows number tuples. refl) };
}
