//! What the directory of a manifest comes to: its tables, or its store.
ghost use Rattle.std.specs.Prelude.{◌≡◌, ◌≢◌, Result};
ghost use Rattle.std.specs.Option.{option_map as map_told};
ghost use Rattle.edi_ports.specs.Faults.{HasRisen};
ghost use Rattle.dir_compile.specs.declared.parts.Parts.{Parts};
ghost use Rattle.dir_load.specs.declared.stop.Refusal.{Refusal};
ghost use Rattle.dir_load.specs.Load.{load_of};
ghost use Rattle.edicheck_core.specs.OneOf.{IsOneOf};
ghost use Rattle.edicheck_core.specs.Made.{compiled, tabled};

use dir_store::write_store;
use edi_ports::Shelf;
use listing_printer::print_tables;
use run_outcome::{Made, Status, load_directory};
use std::alloc::Global;

/// What the tables of the directory of that manifest come to.
pub(crate) fn tell_tables<S: Shelf>(alloc: Global, manifest: &[u8], shelf: &mut S) -> Made
    ensures due { IsOneOf ((loaded : Result Parts Refusal) × (result ≡ tabled loaded))
        (map_told (λ files. tabled (load_of files manifest.now)) (S.files shelf.old))
        (HasRisen (S.faults shelf.old) (S.faults shelf.new)) (Unit {0}) result }
    ensures files { S.files shelf.new ≡ S.files shelf.old }
    ensures steady { S.is_steady shelf.old → result.status ≢ Status.ReadFault }
{
    match load_directory(alloc, manifest, shelf) {
        Ok(directory) => Made::lines(Status::Done, print_tables(alloc, &directory)),
        Err(made) => made,
    }
}

/// What the store of the directory of that manifest comes to.
pub(crate) fn tell_store<S: Shelf>(alloc: Global, manifest: &[u8], shelf: &mut S) -> Made
    ensures due { IsOneOf ((loaded : Result Parts Refusal) × (result ≡ compiled loaded))
        (map_told (λ files. compiled (load_of files manifest.now)) (S.files shelf.old))
        (HasRisen (S.faults shelf.old) (S.faults shelf.new)) (Unit {0}) result }
    ensures files { S.files shelf.new ≡ S.files shelf.old }
    ensures steady { S.is_steady shelf.old → result.status ≢ Status.ReadFault }
{
    match load_directory(alloc, manifest, shelf) {
        Ok(directory) => Made::lines(Status::Done, write_store(alloc, &directory)),
        Err(made) => made,
    }
}
