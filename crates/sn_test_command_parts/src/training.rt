//! Training captures: the windows of their records, whole ones alone, and the most that they may have.
use sn_base::seq::Seq;
use sn_command::desk::Desk;
use sn_command::fault::Fault;
use sn_command::refusal::Refusal;
use sn_command_training::read::read_training;
use sn_cost_training::training::Training;
use sn_fields::field::Field;
use sn_io::mem_inputs::MemInputs;
use sn_io::mem_sink::MemSink;
use sn_pcap::header::HeadFault;
use sn_test_inputs::packets::HEADER;
use sn_test_inputs::trouble::Trouble;
use std::alloc::Global;

/// The header of a record at one second and so many microseconds, with no bytes captured of 60.
fn record(micros: u32) -> [u8; 16] {
    let [a, b, c, d] = micros.to_le_bytes();
    [1, 0, 0, 0, a, b, c, d, 0, 0, 0, 0, 60, 0, 0, 0]
}

/// What this capture, in windows of a second, is trained on, where the read of this number fails.
fn trained_but(
    alloc: Global,
    file: Vec<u8>,
    fails: Option<u32>,
) -> Result<Result<Training, Refusal>, Trouble> {
    let mut files = MemInputs::new(alloc);
    files.put("t", Seq::from_vec(file))?;
    if let Some(call) = fails {
        files.fail_at(u64::from(call))?;
    }
    let mut out = MemSink::new(alloc, 100)?;
    let mut desk = Desk {
        files: &mut files,
        out: &mut out,
    };
    Ok(read_training(alloc, &mut desk, "t", 1_000_000_000))
}

/// What this capture, in windows of a second, is trained on.
fn trained(alloc: Global, file: Vec<u8>) -> Result<Result<Training, Refusal>, Trouble> {
    trained_but(alloc, file, None)
}

/// For each tuple the number of its window.
fn numbers(alloc: Global, training: &Training) -> Result<Vec<u64>, Trouble> {
    let mut numbers = Vec::new(alloc);
    for window in training.windows() {
        for _ in window.tuples.as_slice() {
            numbers.push(window.number)?;
        }
    }
    Ok(numbers)
}

/// A capture of records at 0, 1500000 and 200000 microseconds.
fn three_records(alloc: Global) -> Result<Vec<u8>, Trouble> {
    let mut file = Vec::from_slice(alloc, &HEADER)?;
    for micros in [0, 1_500_000, 200_000] {
        file.extend_from_slice(&record(micros))?;
    }
    Ok(file)
}

#[test]
fn numbers_the_windows_of_a_training_capture(rt: HostRuntime) {
    let alloc = rt.alloc();
    match trained(alloc, three_records(alloc).expect(&rt, "ample memory")).expect(
        &rt,
        "ample memory",
    ) {
        Ok(training) => {
            assert_eq!(rt;
                numbers(alloc, &training)
                    .expect(&rt, "ample memory")
                    .as_slice(),
                [0, 1, 1].as_slice()
            );
            for window in training.windows() {
                for tuple in window.tuples.as_slice() {
                    assert_eq!(rt; tuple.get(Field::PacketLength), 60);
                }
            }
        }
        Err(_) => assert!(rt; false),
    }
}

#[test]
fn takes_the_whole_records_of_a_damaged_training_capture(rt: HostRuntime) {
    let alloc = rt.alloc();
    let mut cut = three_records(alloc).expect(&rt, "ample memory");
    cut.truncate(71);
    match trained(alloc, cut).expect(&rt, "ample memory") {
        Ok(training) => assert_eq!(rt;
            numbers(alloc, &training)
                .expect(&rt, "ample memory")
                .as_slice(),
            [0, 1].as_slice()
        ),
        Err(_) => assert!(rt; false),
    }
    match trained(
        alloc,
        Vec::from_slice(alloc, &HEADER).expect(&rt, "ample memory"),
    )
    .expect(&rt, "ample memory")
    {
        Ok(training) => assert_eq!(rt; training.windows().len(), 0),
        Err(_) => assert!(rt; false),
    }
}

#[test]
fn refuses_a_header_and_too_many_records(rt: HostRuntime) {
    let alloc = rt.alloc();
    let mut other_link = HEADER;
    other_link[20] = 105;
    assert!(rt;
        matches!(
            trained(
                alloc,
                Vec::from_slice(alloc, &other_link).expect(&rt, "ample memory")
            )
            .expect(&rt, "ample memory"),
            Err(Refusal::Refused(Fault::Head(HeadFault::Link)))
        )
    );
    let mut file = Vec::from_slice(alloc, &HEADER).expect(&rt, "ample memory");
    for _ in 0..4_194_304u32 {
        assert!(rt; file.extend_from_slice(&record(0)).is_ok());
    }
    match trained(
        alloc,
        Vec::from_slice(alloc, file.as_slice()).expect(&rt, "ample memory"),
    )
    .expect(&rt, "ample memory")
    {
        Ok(training) => assert_eq!(rt;
            numbers(alloc, &training).expect(&rt, "ample memory").len(),
            4_194_304
        ),
        Err(_) => assert!(rt; false),
    }
    assert!(rt; file.extend_from_slice(&record(0)).is_ok());
    assert!(rt;
        matches!(
            trained(alloc, file).expect(&rt, "ample memory"),
            Err(Refusal::Refused(Fault::TooLarge))
        )
    );
}

/// A capture of records of 60 bytes, each captured whole, the first of them at 0 and each a millisecond after the one before.
fn many_records(alloc: Global, count: u32) -> Result<Vec<u8>, Trouble> {
    let mut file = Vec::from_slice(alloc, &HEADER)?;
    for number in 0..count {
        let [a, b, c, d] = number.wrapping_mul(1000).to_le_bytes();
        file.extend_from_slice(&[0, 0, 0, 0, a, b, c, d, 60, 0, 0, 0, 60, 0, 0, 0])?;
        file.extend_from_slice(&[0; 60])?;
    }
    Ok(file)
}

#[test]
fn records_go_on_from_one_read_to_the_next(rt: HostRuntime) {
    let alloc = rt.alloc();
    match trained(alloc, many_records(alloc, 3000).expect(&rt, "ample memory")).expect(
        &rt,
        "ample memory",
    ) {
        Ok(training) => {
            assert_eq!(rt; training.windows().len(), 3);
            for window in training.windows() {
                assert_eq!(rt; window.tuples.as_slice().len(), 1000);
            }
        }
        Err(_) => assert!(rt; false),
    }
}

/// Writes a byte of a file.
fn put_byte(file: &mut Vec<u8>, place: usize, byte: u8) {
    if let Some(held) = file.get_mut(place) {
        *held = byte;
    }
}

#[test]
fn a_training_capture_is_read_to_its_end(rt: HostRuntime) {
    let alloc = rt.alloc();
    let mut other_link = many_records(alloc, 3000).expect(&rt, "ample memory");
    put_byte(&mut other_link, 20, 105);
    let mut damaged = many_records(alloc, 3000).expect(&rt, "ample memory");
    put_byte(&mut damaged, 24 + 8 + 3, 1);
    for file in [other_link, damaged] {
        let whole = trained(
            alloc,
            Vec::from_slice(alloc, file.as_slice()).expect(&rt, "ample memory"),
        )
        .expect(&rt, "ample memory");
        assert!(rt; !matches!(whole, Err(Refusal::ReadFault)));
        assert!(rt;
            matches!(
                trained_but(alloc, file, Some(3)).expect(&rt, "ample memory"),
                Err(Refusal::ReadFault)
            )
        );
    }
}
