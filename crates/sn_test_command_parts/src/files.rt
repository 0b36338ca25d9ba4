//! Files that are read within a limit, and texts that are written.
use sn_base::seq::Seq;
use sn_command::desk::Desk;
use sn_command::fault::Fault;
use sn_command::files::read_file;
use sn_command::refusal::Refusal;
use sn_command::texts::write_text;
use sn_io::mem_inputs::MemInputs;
use sn_io::mem_sink::MemSink;

#[test]
fn reads_files_within_a_limit(rt: HostRuntime) {
    let alloc = rt.alloc();
    let mut files = MemInputs::new(alloc);
    assert!(rt;
        files
            .put(
                "f",
                Seq::from_vec(Vec::from_slice(alloc, b"abcd").expect(&rt, "ample memory"))
            )
            .is_ok()
    );
    let mut out = MemSink::new(alloc, 100).expect(&rt, "ample memory");
    let mut desk = Desk {
        files: &mut files,
        out: &mut out,
    };
    match read_file(alloc, &mut desk, "f", 4) {
        Ok(bytes) => assert_eq!(rt; bytes.as_slice(), b"abcd".as_slice()),
        Err(_) => assert!(rt; false),
    }
    assert!(rt;
        matches!(
            read_file(alloc, &mut desk, "f", 3),
            Err(Refusal::Refused(Fault::TooLarge))
        )
    );
    assert!(rt; matches!(read_file(alloc, &mut desk, "g", 3), Err(Refusal::Missing)));
    assert!(rt; write_text(b"text", &mut desk).is_ok());
    assert_eq!(rt; out.bytes(), b"text".as_slice());
}
