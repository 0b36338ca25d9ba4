//! The files of a job.
use sn_command_job::files::job_files;
use sn_io::inputs::Inputs;

#[test]
fn makes_the_files_of_a_job(rt: HostRuntime) {
    let mut files = job_files(rt.alloc(), 7).expect(&rt, "ample memory");
    let mut front = [0u8; 8];
    for name in ["training", "capture"] {
        let read = files.read_at(name, 0, &mut front).ok();
        let read = read.expect(&rt, "a file of the job");
        assert_eq!(rt; read, 8);
        // The magic number in microseconds, little-endian, and version 2.4.
        assert_eq!(rt; front, [0xd4, 0xc3, 0xb2, 0xa1, 2, 0, 4, 0]);
    }
}
