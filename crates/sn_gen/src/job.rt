//! The texts of a whole job over generated captures.
ghost use Rattle.std.specs.Prelude.{◌≡◌};
ghost use Rattle.sn_gen.specs.Job.{job_queries, job_switch};

/// The switch of the job.
const JOB_SWITCH: &[u8] =
    b"stages 16; actions 8; bits 8388608; meta 4096; chain 2; slots 256, 1024, 4096;\n";

/// The queries of the job: destinations that many connections are opened to, that many sources send to, and whose
/// connections carry few bytes.
const JOB_QUERIES: &[u8] = b"window 1000000
query newconn {
  refine ip.dst: 8, 16, 32;
  packets
    | filter tcp.flags == 2
    | map ip.dst as d, 1 as n
    | reduce d: sum(n) width 32
    | filter n > 400;
}
query spread {
  refine ip.dst: 8, 16, 32;
  packets
    | filter ip.valid == 1
    | map ip.dst as d, ip.src as s
    | distinct
    | map d as d, 1 as n
    | reduce d: sum(n) width 32
    | filter n > 300;
}
query slow {
  refine ip.dst: 8, 16, 32;
  packets
    | filter tcp.valid == 1
    | map ip.dst as d, ip.src as s, tcp.sport as p
    | distinct
    | map d as d, 1 as conns
    | reduce d: sum(conns) width 32;
  packets
    | filter tcp.valid == 1
    | map ip.dst as d, ip.len as total
    | reduce d: sum(total) width 48;
  join d
    | map d as d, conns * 1000000 / total as ratio
    | filter ratio > 20000 at (8: 1000, 16: 1000);
}
";

/// The text of the job's switch.
#[tactic(auto, unfolding(crate::specs::Job::job_switch))]
pub fn job_switch() -> &'static [u8]
    ensures { result.now ≡ job_switch }
{
    JOB_SWITCH
}

/// The text of the job's queries.
#[tactic(auto, unfolding(crate::specs::Job::job_queries))]
pub fn job_queries() -> &'static [u8]
    ensures { result.now ≡ job_queries }
{
    JOB_QUERIES
}
