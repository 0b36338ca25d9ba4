//! The texts of answers in either form.
ghost use Rattle.std.specs.Prelude.{◌≡◌, ℕ, List, IfOk, length};
ghost use Rattle.std.specs.List.{AllByRecursion};
ghost use Rattle.sn_windows.specs.Rising.{Window};
ghost use Rattle.sn_out.specs.Text.{IsPartOf};
ghost use Rattle.sn_command_run.specs.Planned.{Planned, Telling, reported_at, reported_emitted_in, wording_in};

use crate::form::Form;
use sn_base::memory::Memory;
use sn_base::seq::Seq;
use sn_command_capture::lines::last_lines;
use sn_out::block::block;
use sn_out::csv_rows::{csv_rows, heading};
use sn_pcap::packet::Ending;
use sn_types::answers::Answers;
use sn_types::typed::Typed;
use std::alloc::Global;

/// What stands before the answers of all windows.
pub(crate) fn first_text(alloc: Global, form: Form) -> Result<Seq<u8>, Memory>
    ensures { IfOk result (λ text. (reported : Telling) (p : Planned) → text ≡ (wording_in form reported p).first) }
{
    match form {
        Form::Blocks => Ok(Seq::new(alloc)),
        Form::Records => Seq::from_slice(alloc, heading()),
    }
}

/// The answers of a window.
pub(crate) fn window_text(
    alloc: Global,
    form: Form,
    t: &Typed,
    answers: &Answers,
) -> Result<Seq<u8>, Memory>
    requires { AllByRecursion (IsPartOf t.now.queries) answers.now.parts }
    ensures { IfOk result (λ text. (reported : Telling) (p : Planned) (windows : List Window) (number : ℕ) (tuples : List (List ℕ)) → p.queries ≡ t.now.queries →
        answers.now ≡ reported_at reported p windows number →
        text ≡ (wording_in form reported p).block windows number tuples) }
{
    match form {
        Form::Blocks => block(alloc, t, answers, true),
        Form::Records => csv_rows(alloc, t, answers),
    }
}

/// What stands after the answers of this many windows, in which this many items were sent.
pub(crate) fn last_text(
    alloc: Global,
    form: Form,
    ending: Ending,
    windows: u64,
    emitted: u64,
) -> Result<Seq<u8>, Memory>
    ensures { IfOk result (λ text. (reported : Telling) (p : Planned) (closed : List Window) → windows ≡ length closed → emitted ≡ reported_emitted_in reported p closed →
        text ≡ (wording_in form reported p).last closed ending) }
{
    match form {
        Form::Blocks => last_lines(alloc, ending, windows, Some(emitted)),
        Form::Records => Ok(Seq::new(alloc)),
    }
}
