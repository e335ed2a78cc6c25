//! Runs over objects in memory, of which one call each may fail.
ghost use Rattle.std.specs.Prelude.{◌<◌};

use edi_ports::{MemShelf, MemSink, MemSource, ShelfFile};
use edi_tables::Chunk;
use edicheck_core::{Status, run};
use std::alloc::{AllocError, Global};

/// No call has this number.
pub const NEVER: u64 = u64::MAX;

/// What is outside of a run: the files `m` and `t`, the input, and the calls of the input, of the shelf and of the sink
/// that fail.
#[derive(Clone, Copy, Debug)]
pub struct Outside<'a> {
    pub manifest: &'a [u8],
    pub text: &'a [u8],
    pub input: &'a [u8],
    pub failing: [u64; 3],
}

/// The status of a run in which a call of the input or of the sink moves one octet, and the octets that the sink holds
/// then, 1,000 at most.
pub fn run_by_octets(
    alloc: Global,
    words: &[&[u8]],
    outside: &Outside<'_>,
) -> Result<(Status, Vec<u8>), AllocError> {
    run_in_memory(alloc, words, outside, 1, 1_000)
}

/// The same for a run in which a call moves many octets, with room for eight million.
pub fn run_at_once(
    alloc: Global,
    words: &[&[u8]],
    outside: &Outside<'_>,
) -> Result<(Status, Vec<u8>), AllocError> {
    run_in_memory(alloc, words, outside, 100_000, 8_000_000)
}

fn run_in_memory(
    alloc: Global,
    words: &[&[u8]],
    outside: &Outside<'_>,
    most: usize,
    room: usize,
) -> Result<(Status, Vec<u8>), AllocError>
    requires { 0 < most }
{
    let words = chunks(alloc, words)?;
    let [input_fails, shelf_fails, sink_fails] = outside.failing;
    let mut input = MemSource::new(
        outside.input.to_vec(alloc)?,
        most,
        [input_fails].to_vec(alloc)?,
    );
    let files = files(alloc, outside)?;
    let mut shelf = MemShelf::new(files, 1_000, [shelf_fails].to_vec(alloc)?);
    let mut out = MemSink::new(alloc, room, most, [sink_fails].to_vec(alloc)?)?;
    let status = run(alloc, &words, &mut shelf, &mut input, &mut out);
    Ok((status, out.octets().to_vec(alloc)?))
}

fn chunks(alloc: Global, words: &[&[u8]]) -> Result<Vec<Chunk>, AllocError> {
    let mut chunks = Vec::new(alloc);
    for word in words {
        chunks.push(Chunk::of(alloc, word)?)?;
    }
    Ok(chunks)
}

fn files(alloc: Global, outside: &Outside<'_>) -> Result<Vec<ShelfFile>, AllocError> {
    let mut files = Vec::new(alloc);
    files.push(file(alloc, b"m", outside.manifest)?)?;
    files.push(file(alloc, b"t", outside.text)?)?;
    Ok(files)
}

fn file(alloc: Global, name: &[u8], octets: &[u8]) -> Result<ShelfFile, AllocError> {
    Ok(ShelfFile {
        name: Chunk::of(alloc, name)?,
        octets: Chunk::of(alloc, octets)?,
    })
}
