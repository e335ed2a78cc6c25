//! A shelf that fails in mid-stream.
use dir_load::{LoadStop, load};
use edi_ports::{MemShelf, ShelfFile};
use edi_tables::Chunk;
use std::test::Fail;

#[test]
fn a_fault_at_a_file_is_told(rt: HostRuntime) -> Result<(), Fail> {
    let alloc = rt.alloc();
    let mut files = Vec::new(alloc);
    files.push(ShelfFile {
        name: Chunk::of(alloc, b"m")?,
        octets: Chunk::of(alloc, b"directory D 96A UN\nelements e\n")?,
    })?;
    // Calls 0 to 2 are those of the manifest, 3 opens the file of elements.
    let mut shelf = MemShelf::new(files, 4096, [3].to_vec(alloc)?);
    let loaded = load(alloc, &mut shelf, b"m");
    assert!(rt; matches!(loaded, Err(LoadStop::Fault)));
    Ok(())
}
