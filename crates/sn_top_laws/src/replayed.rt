//! Laws on `emit`, `finish` and `run`, with nothing to run.
ghost use Rattle.std.specs.Prelude.{◌≡◌, ◌<◌, ◌≤◌, ◌++◌, ℕ, List, None, Ok, false, length};
ghost use Rattle.std.specs.List.{AllByRecursion, flat_map};
ghost use Rattle.sn_windows.specs.Rising.{AreRising, Window};
ghost use Rattle.sn_command_emit.specs.Emit.{Emit};
ghost use Rattle.sn_command_emit.specs.Sent.{frames_block};
ghost use Rattle.sn_engine.specs.Intakes.{intakes_of};
ghost use Rattle.sn_command_finish.specs.Finish.{Finish};
ghost use Rattle.sn_command_finish.specs.Reported.{Reported};
ghost use Rattle.sn_plan_fit.specs.Fits.{Fits};
ghost use Rattle.sn_io.specs.Counts.{ByName};
ghost use Rattle.sn_pcap.specs.declared.packet.Ending.TheVariants.{Clean};
ghost use Rattle.sn_top_laws.specs.Calls.{CallsFollow, Wrote};
ghost use Rattle.sn_top_laws.specs.Real.{IsReal};
ghost use Rattle.sn_top_laws.specs.Replayed.{FinishesSo, HasWritten, HoldsBytes, IsKept, IsWritten};
ghost use Rattle.sn_command_run.specs.Planned.{Planned, as_they_are, plan_block, plan_lines};
ghost use Rattle.sn_command_run.specs.Run.{Run};
ghost use Rattle.sn_command.specs.Outcomes.{Outcome};
ghost use Rattle.sn_command.specs.Stages.{most_text};
ghost use Rattle.sn_switch.specs.declared.switch.Switch.{Switch};
ghost use Rattle.sn_switch.specs.Texts.{IsSwitch};
ghost use Rattle.sn_types.specs.Typed.{IsTyped};

/// The frames that `emit` writes of the windows of a capture, one window after another, are whole reports of its plan, and what
/// `finish` answers of them, where they have at most 2^30 bytes, is what `run` writes of these windows where the capture isn't damaged: their blocks and the total.
pub fn finish_answers_what_emit_writes()
    ensures { (typed_for : ℕ) (s : Switch) (p : Planned) (windows : List Window) → ∥ IsTyped typed_for p.queries ∥₁ → IsSwitch s → Fits p.queries s p.entries →
        0 < length (intakes_of 0 p.entries) →
        AreRising None windows → AllByRecursion IsReal windows →
        length (flat_map (λ (w : Window). frames_block p windows w.0 w.1) windows) ≤ most_text →
        (files : ByName (List ℕ)) (outcome : Outcome (Unit {0})) →
        Reported p.queries p.entries (flat_map (λ w. frames_block p windows w.0 w.1) windows) files outcome →
        outcome ≡ record { text = flat_map (λ w. plan_block p windows w.0 w.1) windows ++ plan_lines p windows Clean; end = Ok tt } }
{}

/// What `emit` wrote with status 0 or 5, where that is at most 2^30 bytes, stands in a file, beside the queries and the plan
/// that it was given. Then `finish` prints of these three what `run` prints of the files that `emit` had, without `--csv` and
/// with answers that are reported as they are, but for the line of a damaged capture, and it ends with 0. Of a capture whose header
/// is refused it prints the total of no window.
pub fn finish_prints_what_run_writes()
    ensures { (switch queries plan capture reports : List ℕ) (files later : ByName (List ℕ)) (emitted ran finished : Outcome (Unit {0})) →
        HoldsBytes capture files →
        Emit switch queries plan capture files emitted → HasWritten emitted → length emitted.text ≤ most_text →
        IsKept queries plan reports emitted.text files later →
        Run as_they_are false switch queries plan capture files ran → Finish queries plan reports later finished → FinishesSo emitted ran finished }
{}

/// The same of calls with the words of these commands, as the contract of the top call has them: a call of `emit` ended with 0 or
/// 5 and wrote a text, and a call of `run` over the same files, without `--csv`, ended with 0 or 5. Then both statuses are the
/// same, and each call of `finish` over files that hold that text, the queries and the plan is a run that ends with 0 and prints
/// what the call of `run` wrote but for the line of the damage, unless memory runs out or a read or a write fails.
pub fn finish_calls_print_what_run_calls_write()
    ensures { (switch queries plan capture reports : List ℕ) (files later : ByName (List ℕ)) (emit_names run_names : List (List ℕ)) (emit_status run_status : ℕ)
        (text ran : List ℕ) → HoldsBytes capture files →
        Wrote emit_names (Emit switch queries plan capture) files emit_status text → IsWritten emit_status → length text ≤ most_text →
        IsKept queries plan reports text files later →
        Wrote run_names (Run as_they_are false switch queries plan capture) files run_status ran → IsWritten run_status →
        CallsFollow queries plan reports later emit_status run_status ran }
{}
