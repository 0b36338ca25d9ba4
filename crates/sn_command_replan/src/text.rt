//! The text of an epoch.
ghost use Rattle.std.specs.Prelude.{◌≡◌, IfOk};
ghost use Rattle.sn_command_replan.specs.Replan.{epoch_text};

use sn_base::bytes::push_bytes;
use sn_base::memory::Memory;
use sn_base::seq::Seq;
use sn_command_search::certificate::Certificate;
use sn_command_search::text::certificate_text;
use sn_out::pieces::push_number;
use std::alloc::Global;

/// The line of an epoch with this number, and its plan.
pub fn epoch_text(alloc: Global, number: u64, certificate: &Certificate) -> Result<Seq<u8>, Memory>
    ensures { IfOk result (λ text. text ≡ epoch_text number certificate.now) }
{
    let plan = certificate_text(alloc, certificate)?;
    let mut text = Vec::new(alloc);
    push_bytes(&mut text, b"epoch ")?;
    push_number(&mut text, number)?;
    push_bytes(&mut text, b"\n")?;
    push_bytes(&mut text, plan.as_slice())?;
    Ok(Seq::from_vec(text))
}
