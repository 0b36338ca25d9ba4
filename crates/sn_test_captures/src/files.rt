//! Files and sinks, in memory and real.
use sn_base::memory::Memory;
use sn_base::seq::Seq;
use sn_io::inputs::{InputFault, Inputs, ReadError, read_whole};
use sn_io::mem_inputs::MemInputs;
use sn_io::mem_sink::MemSink;
use sn_io::real::{RealInputs, RealSink};
use sn_io::sink::{Sink, WriteFault, write_all_to};
use std::alloc::Global;
use std::fs;

/// Bytes as a file.
pub(crate) fn file_of(alloc: Global, bytes: &[u8]) -> Result<Seq<u8>, Memory> {
    match Vec::from_slice(alloc, bytes) {
        Ok(bytes) => Ok(Seq::from_vec(bytes)),
        Err(_) => Err(Memory),
    }
}

#[test]
fn reads_whole_files(rt: HostRuntime) {
    let alloc = rt.alloc();
    let mut files = MemInputs::new(alloc);
    assert!(rt;
        files
            .put(
                "ten",
                file_of(alloc, b"0123456789").expect(&rt, "ample memory")
            )
            .is_ok()
    );
    assert!(rt;
        files
            .put(
                "eleven",
                file_of(alloc, b"0123456789a").expect(&rt, "ample memory")
            )
            .is_ok()
    );
    let ten = read_whole(alloc, &mut files, "ten", 10).expect(&rt, "ample memory");
    assert_eq!(rt; ten.as_slice(), b"0123456789".as_slice());
    assert_eq!(rt;
        read_whole(alloc, &mut files, "eleven", 10).err(),
        Some(ReadError::TooLarge)
    );
    assert_eq!(rt;
        read_whole(alloc, &mut files, "twelve", 10).err(),
        Some(ReadError::Missing)
    );
    assert!(rt; files.fail_at(4).is_ok());
    assert_eq!(rt;
        read_whole(alloc, &mut files, "ten", 10).err(),
        Some(ReadError::ReadFault)
    );
}

#[test]
fn writes_whole_pieces(rt: HostRuntime) {
    let alloc = rt.alloc();
    let mut sink = MemSink::new(alloc, 10).expect(&rt, "ample memory");
    assert!(rt; sink.fail_at(0).is_ok());
    assert_eq!(rt; write_all_to(&mut sink, b"abc"), Err(WriteFault));
    assert_eq!(rt; sink.bytes(), b"".as_slice());

    let mut sink = MemSink::new(alloc, 10).expect(&rt, "ample memory");
    assert_eq!(rt; write_all_to(&mut sink, b"abc"), Ok(()));
    assert_eq!(rt; sink.bytes(), b"abc".as_slice());

    let mut sink = MemSink::new(alloc, 2).expect(&rt, "ample memory");
    assert_eq!(rt; write_all_to(&mut sink, b"abc"), Err(WriteFault));
    assert_eq!(rt; sink.bytes(), b"ab".as_slice());
}

#[test]
fn fails_where_it_is_to(rt: HostRuntime) {
    let alloc = rt.alloc();
    let mut files = MemInputs::new(alloc);
    let mut piece = [0; 4];
    assert!(rt;
        files
            .put("file", file_of(alloc, b"first").expect(&rt, "ample memory"))
            .is_ok()
    );
    assert!(rt; files.fail_at(0).is_ok());
    assert_eq!(rt;
        files.read_at("other", 0, &mut piece),
        Err(InputFault::Missing)
    );
    assert_eq!(rt;
        files.read_at("file", 0, &mut piece),
        Err(InputFault::Failed)
    );
    assert_eq!(rt; piece, [0, 0, 0, 0]);
    assert!(rt;
        files
            .put(
                "file",
                file_of(alloc, b"second").expect(&rt, "ample memory")
            )
            .is_ok()
    );
    assert_eq!(rt; files.read_at("file", 3, &mut piece), Ok(3));
    assert_eq!(rt; piece, [b'o', b'n', b'd', 0]);
    assert_eq!(rt; files.read_at("file", 7, &mut piece), Ok(0));
}

#[test]
fn reads_real_files(rt: HostRuntime) {
    let alloc = rt.alloc();
    let mut words = Vec::new(alloc);
    for word in ["here.bin", "nowhere.bin", "."] {
        assert!(rt;
            words
                .push(String::from_str(alloc, word).expect(&rt, "ample memory"))
                .is_ok()
        );
    }
    let mut files = RealInputs::new(&rt, alloc, &words).expect(&rt, "ample memory");
    assert!(rt; fs::write(&rt, "here.bin", b"real bytes".as_slice()).is_ok());
    let whole = read_whole(alloc, &mut files, "here.bin", 10);
    let large = read_whole(alloc, &mut files, "here.bin", 9);
    let expected = files.expected_bytes("here.bin");
    assert!(rt; fs::remove_file(&rt, "here.bin").is_ok());
    assert_eq!(rt;
        whole.expect(&rt, "ample memory").as_slice(),
        b"real bytes".as_slice()
    );
    assert_eq!(rt; large.err(), Some(ReadError::TooLarge));
    assert_eq!(rt; expected, 10);
    assert_eq!(rt; files.expected_bytes("nowhere.bin"), 0);
    assert_eq!(rt; files.expected_bytes("unknown"), 0);
    let mut piece = [0; 4];
    assert_eq!(rt;
        files.read_at("nowhere.bin", 0, &mut piece),
        Err(InputFault::Failed)
    );
    assert_eq!(rt; files.read_at(".", 0, &mut piece), Err(InputFault::Failed));
    assert_eq!(rt;
        files.read_at("unknown", 0, &mut piece),
        Err(InputFault::Missing)
    );
}

/// A capture that is replaced, taken away or cut short while it is read stays the file that it was at the first read.
#[test]
fn keeps_files_open(rt: HostRuntime) {
    let alloc = rt.alloc();
    let mut words = Vec::new(alloc);
    for word in ["renamed.bin", "removed.bin", "cut.bin"] {
        assert!(rt;
            words
                .push(String::from_str(alloc, word).expect(&rt, "ample memory"))
                .is_ok()
        );
        assert!(rt; fs::write(&rt, word, b"0123456789".as_slice()).is_ok());
    }
    let mut files = RealInputs::new(&rt, alloc, &words).expect(&rt, "ample memory");
    let mut piece = [0; 4];
    for word in ["renamed.bin", "removed.bin", "cut.bin"] {
        assert_eq!(rt; files.read_at(word, 0, &mut piece), Ok(4));
        assert_eq!(rt; piece, [b'0', b'1', b'2', b'3']);
    }
    assert!(rt; fs::write(&rt, "other.bin", b"abcdefghijkl".as_slice()).is_ok());
    assert!(rt; fs::rename(&rt, "other.bin", "renamed.bin").is_ok());
    assert_eq!(rt; files.read_at("renamed.bin", 4, &mut piece), Ok(4));
    assert_eq!(rt; piece, [b'4', b'5', b'6', b'7']);
    assert_eq!(rt; files.read_at("renamed.bin", 8, &mut piece), Ok(2));
    assert_eq!(rt; files.read_at("renamed.bin", 10, &mut piece), Ok(0));
    assert!(rt; fs::remove_file(&rt, "removed.bin").is_ok());
    assert_eq!(rt; files.read_at("removed.bin", 8, &mut piece), Ok(2));
    assert_eq!(rt; files.read_at("removed.bin", 1, &mut piece), Ok(4));
    assert_eq!(rt; piece, [b'1', b'2', b'3', b'4']);
    assert!(rt; fs::write(&rt, "cut.bin", b"01234".as_slice()).is_ok());
    assert_eq!(rt; files.read_at("cut.bin", 4, &mut piece), Ok(1));
    assert_eq!(rt; files.read_at("cut.bin", 5, &mut piece), Ok(0));
    assert!(rt; fs::remove_file(&rt, "renamed.bin").is_ok());
    assert!(rt; fs::remove_file(&rt, "cut.bin").is_ok());
}

#[test]
fn writes_to_streams(rt: HostRuntime) {
    assert_eq!(rt; write_all_to(&mut RealSink::out(&rt), b"to out\n"), Ok(()));
    assert_eq!(rt; write_all_to(&mut RealSink::err(&rt), b"to err\n"), Ok(()));
    assert_eq!(rt; RealSink::out(&rt).write(b""), Ok(0));
}
