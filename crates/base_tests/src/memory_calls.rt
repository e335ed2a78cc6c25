//! Reading and putting over objects in memory that move one octet per call and fail in mid-stream.
use edi_ports::{
    MemShelf, MemSink, MemSource, NamedStop, ReadStop, ShelfFile, Source, Taken, Unread, put_all,
    read_all, read_named,
};
use edi_tables::Chunk;
use std::alloc::{AllocError, Global};
use std::test::Fail;

const ADVICE: &[u8] = b"UNA:+.? '";

fn advice(alloc: Global, failing: &[u64]) -> Result<MemSource, AllocError> {
    Ok(MemSource::new(ADVICE.to_vec(alloc)?, 1, failing.to_vec(alloc)?))
}

fn file(alloc: Global, name: &[u8], octets: &[u8]) -> Result<ShelfFile, AllocError> {
    Ok(ShelfFile {
        name: Chunk::of(alloc, name)?,
        octets: Chunk::of(alloc, octets)?,
    })
}

#[test]
fn reads_a_source_until_it_fails(rt: HostRuntime) -> Result<(), Fail> {
    let alloc = rt.alloc();
    assert_eq!(rt;
        read_all(alloc, &mut advice(alloc, &[])?, 9)?.as_slice(),
        ADVICE
    );
    let long = read_all(alloc, &mut advice(alloc, &[])?, 8);
    assert_eq!(rt; long.err(), Some(ReadStop::TooLong));
    let mut source = advice(alloc, &[1])?;
    assert_eq!(rt;
        read_all(alloc, &mut source, 9).err(),
        Some(ReadStop::Fault)
    );
    let mut next = [0];
    assert_eq!(rt; source.take(&mut next), Taken::Got(1));
    assert_eq!(rt; next[0], b'N');
    Ok(())
}

#[test]
fn puts_a_prefix_up_to_the_fault(rt: HostRuntime) -> Result<(), Fail> {
    let alloc = rt.alloc();
    let rows: [(usize, &[u64], &[u8]); 3] = [
        (9, &[9], ADVICE),
        (9, &[4], b"UNA:"),
        (3, &[], b"UNA"),
    ];
    for (room, failing, held) in rows {
        let mut sink = MemSink::new(alloc, room, 1, failing.to_vec(alloc)?)?;
        assert_eq!(rt; put_all(&mut sink, ADVICE), held.len() == 9, "room {room}");
        assert_eq!(rt; sink.octets(), held, "room {room}");
    }
    Ok(())
}

#[test]
fn reads_the_first_file_of_a_name(rt: HostRuntime) -> Result<(), Fail> {
    let alloc = rt.alloc();
    let files = vec![in alloc; file(alloc, b"m", b"first")?, file(alloc, b"m", b"second")?]?;
    // Calls 0 to 6 read it all, 7 finds nothing, 8 to 13 pass the limit, and 14 and 15 open it and fail.
    let mut shelf = MemShelf::new(files, 1, vec![in alloc; 15]?);
    assert_eq!(rt;
        read_named(alloc, &mut shelf, b"m", 5)?.as_slice(),
        b"first".as_slice()
    );
    for (name, stop) in [
        (&b"n"[..], NamedStop::Unread(Unread::Absent)),
        (b"m", NamedStop::Unread(Unread::TooLarge)),
        (b"m", NamedStop::Fault),
    ] {
        assert_eq!(rt; read_named(alloc, &mut shelf, name, 4).err(), Some(stop));
    }
    Ok(())
}
