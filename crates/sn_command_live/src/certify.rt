//! The plan that costs least on a training capture is searched for, and written with what shows it.
ghost use Rattle.std.specs.Prelude.{◌≡◌, ◌++◌, [], ◌∷◌, IfOk};
ghost use Rattle.sn_command_search.specs.Certificates.{certificate_text};
ghost use Rattle.sn_plan_fit.specs.Fits.{Fits};
ghost use Rattle.sn_command_live.specs.Live.{Certifies, CertifiesAfter, searched_of};
ghost use Rattle.sn_command.specs.Desks.{world};
ghost use Rattle.sn_command.specs.Refusals.{seen_as};
ghost use Rattle.sn_command.specs.Runs.{Runs, WorksFrom};
ghost use Rattle.sn_command.specs.Stages.{Adds};
ghost use Rattle.sn_switch.specs.Texts.{IsSwitch};

use crate::certified::Certified;
use sn_command::desk::Desk;
use sn_command::refusal::Refusal;
use sn_command::texts::write_text;
use sn_command_search::certificate::Certificate;
use sn_command_search::search::search;
use sn_command_search::text::certificate_text;
use sn_command_texts::queries::read_queries;
use sn_command_texts::texts::read_switch;
use sn_command_training::read::read_training;
use sn_io::inputs::Inputs;
use sn_io::sink::Sink;
use std::alloc::Global;

/// Writes a text, and then a certificate: the plan, its cost and its tree.
fn write_certificate<I: Inputs, O: Sink>(
    alloc: Global,
    before: &[u8],
    certificate: &Certificate,
    desk: &mut Desk<'_, I, O>,
) -> Result<(), Refusal>
    ensures { Runs [] (Adds (before.now ++ certificate_text certificate.now)) (world I.Inputs O.Sink desk.old) result (world I.Inputs O.Sink desk.new) }
{
    let text = certificate_text(alloc, certificate)?;
    write_text(before, desk)?;
    write_text(text.as_slice(), desk)
}

/// Reads the queries, the switch and the training capture, searches for the plan that costs least, and writes it with its cost
/// and its tree, after a text. At most this many nodes of the tree are expanded.
pub fn certify_after<I: Inputs, O: Sink>(
    alloc: Global,
    before: &[u8],
    switch: &str,
    queries: &str,
    train: &str,
    nodes: u32,
    desk: &mut Desk<'_, I, O>,
) -> Result<Certified, Refusal>
    ensures works { WorksFrom 2 (queries.now ∷ switch.now ∷ train.now ∷ []) (CertifiesAfter before.now switch.now queries.now train.now nodes)
        (world I.Inputs O.Sink desk.old) (seen_as searched_of result) (world I.Inputs O.Sink desk.new) }
    ensures limits { IfOk result (λ c. IsSwitch c.limits) }
    ensures fits { IfOk result (λ c. Fits c.typed.queries c.limits c.certificate.plan.entries) }
{
    let typed = read_queries(alloc, desk, queries)?;
    let limits = read_switch(alloc, desk, switch)?;
    let training = read_training(alloc, desk, train, typed.window_ns())?;
    let certificate = search(alloc, &typed, &limits, &training, nodes)?;
    write_certificate(alloc, before, &certificate, desk)?;
    Ok(Certified {
        typed,
        limits,
        certificate,
    })
}

/// The same, with nothing before the plan.
pub fn certify<I: Inputs, O: Sink>(
    alloc: Global,
    switch: &str,
    queries: &str,
    train: &str,
    nodes: u32,
    desk: &mut Desk<'_, I, O>,
) -> Result<Certified, Refusal>
    ensures works { WorksFrom 2 (queries.now ∷ switch.now ∷ train.now ∷ []) (Certifies switch.now queries.now train.now nodes) (world I.Inputs O.Sink desk.old)
        (seen_as searched_of result) (world I.Inputs O.Sink desk.new) }
    ensures limits { IfOk result (λ c. IsSwitch c.limits) }
    ensures fits { IfOk result (λ c. Fits c.typed.queries c.limits c.certificate.plan.entries) }
{
    certify_after(alloc, b"", switch, queries, train, nodes, desk)
}
