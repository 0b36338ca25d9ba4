//! The files of a job.
ghost use Rattle.std.specs.Prelude.{◌≡◌, IfOk};
ghost use Rattle.sn_io.specs.MemInputs.{held_by};
ghost use Rattle.sn_command_job.specs.Job.{job_files};

use crate::made::MadeFiles;
use sn_base::memory::Memory;
use sn_base::seq::Seq;
use sn_gen::capture::capture;
use sn_gen::job::{job_queries, job_switch};
use std::alloc::Global;

/// Makes the files of a job: the switch and the queries of all jobs, the capture of this number to train on, and that of the
/// next number to be answered.
pub fn job_files(alloc: Global, number: u32) -> Result<MadeFiles, Memory>
    ensures { IfOk result (λ files. held_by files ≡ job_files number) }
{
    let mut files = MadeFiles::new(alloc);
    files.put("switch", Seq::from_slice(alloc, job_switch())?)?;
    files.put("queries", Seq::from_slice(alloc, job_queries())?)?;
    files.put("training", capture(alloc, number as u64)?)?;
    files.put("capture", capture(alloc, number as u64 + 1)?)?;
    Ok(files)
}
