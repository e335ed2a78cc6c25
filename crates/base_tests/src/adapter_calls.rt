//! The adapters over a fake of std that fails in mid-stream, and a folder's shelf over the system's files.
use edi_ports::{FolderShelf, Opened, Put, Shelf, Sink, Source, StdSink, StdSource, Taken};
use std::io;
use std::io::{ErrorKind, Read, Write};

// Its number of calls so far.
#[derive(Drop)]
struct FakeFile(u8);

// Gives one octet, is interrupted, and ends.
impl Read for FakeFile {
    fn read(&mut self, buffer: &mut [u8]) -> io::Result<usize> {
        let call = self.0;
        self.0 = call.saturating_add(1);
        match (call, buffer.first_mut()) {
            (0, Some(first)) => {
                *first = b'U';
                Ok(1)
            }
            (1, _) => Err(io::Error::from(ErrorKind::Interrupted)),
            _ => Ok(0),
        }
    }
}

// Takes one octet, then nothing, then fails, and from then on takes all but can't be flushed.
impl Write for FakeFile {
    fn write(&mut self, part: &[u8]) -> io::Result<usize> {
        let call = self.0;
        self.0 = call.saturating_add(1);
        match call {
            0 => Ok(part.len().min(1)),
            1 => Ok(0),
            2 => Err(io::Error::from(ErrorKind::BrokenPipe)),
            _ => Ok(part.len()),
        }
    }

    fn flush(&mut self) -> io::Result<()> {
        if self.0 > 3 {
            return Err(io::Error::from(ErrorKind::StorageFull));
        }
        Ok(())
    }
}

#[test]
fn each_call_makes_one_of_std(rt: HostRuntime) {
    let mut source = StdSource::new(FakeFile(0));
    let mut buffer = [0; 4];
    for taken in [Taken::Got(1), Taken::Failed, Taken::End] {
        assert_eq!(rt; source.take(&mut buffer), taken);
        assert_eq!(rt; buffer, [b'U', 0, 0, 0]);
    }
    let mut sink = StdSink::new(FakeFile(0));
    for put in [Put::Took(1), Put::Failed, Put::Failed, Put::Failed] {
        assert_eq!(rt; sink.put(b"UNB"), put);
    }
}

// A folder can be opened, and not be read.
#[test]
fn a_folder_tells_absent_from_failed(rt: HostRuntime) {
    let mut shelf = FolderShelf::new(&rt);
    for (name, opened) in [
        (&b"no-file-of-this-name"[..], Opened::Absent),
        (b"order\0", Opened::Failed),
        (b"\xffrder", Opened::Failed),
    ] {
        assert_eq!(rt; shelf.open(name), opened);
    }
    assert_eq!(rt; shelf.open(b"."), Opened::Open);
    assert_eq!(rt; shelf.take(&mut [0; 4]), Taken::Failed);
}
