//! A directory: what it has under a name, its segment tables, and their collisions.
ghost use Rattle.std.specs.Str.{bytes_eq};
ghost use Rattle.std.specs.Prelude.{[], ◌&&◌, ◌∷◌, ◌≡◌, ◌<◌, All, IfOk, IfSome, Some, length, map, position, slice_get};
ghost use Rattle.std.specs.Option.{option_copied, option_map};
ghost use Rattle.collision_check.specs.Listed.{collision_seen};
ghost use Rattle.edi_tables.specs.Collisions.{collisions_of};
ghost use Rattle.edi_tables.specs.Rows.{nodes_of, table_faults};
ghost use Rattle.service_tables.specs.ServiceTables.{contrl_table_rows};
ghost use Rattle.dir_compile.specs.Codes.{AreNumbersOf};
ghost use Rattle.dir_compile.specs.Compile.{composite_name, list_name, message_name, named_in, segment_name};
ghost use Rattle.dir_compile.specs.Directory.{
  IsDirectory,
  contrl_name,
  is_table_named,
  table_named,
  table_names,
  tables_of,
};

use crate::codes::{Codes, numbers_of};
use crate::names::{Names, octets_of};
use crate::parts::Parts;
use collision_check::{Collision, list_collisions};
use edi_tables::{Code, CodeList, CompositeDef, List, MessageDef, SegmentDef, Table, Tag};
use service_tables::contrl_rows;
use std::alloc::{AllocError, Global};
use std::marker::Model;

/// A directory without fault, seen as its parts in ascending order of names.
///
/// It keeps a segment table for CONTRL and for each message, and the collisions of each table.
#[derive(Drop)]
pub struct Directory {
    parts: Parts,
    names: Names,
    // The numbers of the codes of each list.
    numbers: Vec<List<u64>>,
    tables: Vec<Table>,
    collisions: Vec<List<Collision>>,
}

impl Model for Directory {
    ghost use Rattle.dir_compile.specs.declared.parts.Parts.{Parts};

    ghost Value = { Parts };

    ghost use Rattle.dir_compile.specs.Indexed.{IsIndexed};

    ghost view = { λ d. d.parts };

    ghost invariant = { IsIndexed };
}

impl Directory {
    /// The directory of parts that are known to be one, and so aren't judged.
    pub fn of(alloc: Global, parts: Parts) -> Result<Directory, AllocError>
        requires { IsDirectory parts }
        ensures { IfOk result (λ directory. directory ≡ parts) }
    {
        let tables = build_tables(alloc, parts.messages.items())?;
        let collisions = find_collisions(alloc, &tables)?;
        let names = Names::of(alloc, &parts)?;
        let numbers = number_lists(alloc, parts.lists.items())?;
        Ok(Directory {
            parts,
            names,
            numbers,
            tables,
            collisions,
        })
    }

    /// Its parts, which have their forms, no fault, and ascending order.
    pub fn parts(&self) -> &Parts
        ensures parts { result.now ≡ self.now }
        ensures directory { IsDirectory self.now }
    {
        &self.parts
    }

    /// The number of the segment table with this name, version, release and agency, if there is one.
    pub fn find_table(
        &self,
        name: &[u8],
        version: &[u8],
        release: &[u8],
        agency: &[u8],
    ) -> Option<usize>
        ensures { result ≡ table_named self.now name.now version.now release.now agency.now }
    {
        if is_contrl(name, version, release, agency) {
            return Some(0);
        }
        if !self.is_of(version, release, agency) {
            return None;
        }
        let place = self.place_of_message(name)?;
        Some(place + 1)
    }

    /// The place of the message of that name among the messages.
    fn place_of_message(&self, name: &[u8]) -> Option<usize>
        ensures place { result
            ≡ position (λ m. bytes_eq (message_name m) name.now) self.now.messages }
        ensures few { IfSome result (λ place. place < 4000000000) }
    {
        let messages = &self.names.messages;
        if name.len() != 6 {
            return None;
        }
        messages.get_index_of(&octets_of::<6>(name))
    }

    /// Whether its messages are of this version, release and agency.
    fn is_of(&self, version: &[u8], release: &[u8], agency: &[u8]) -> bool
        ensures { result ≡ (bytes_eq self.now.version version.now
            && bytes_eq self.now.release release.now
            && bytes_eq self.now.agency agency.now) }
    {
        self.parts.version.octets() == version
            && self.parts.release.octets() == release
            && self.parts.agency.octets() == agency
    }

    /// How many segment tables it has: CONTRL's, which is number 0, and one a message.
    pub fn table_count(&self) -> usize
        ensures { result ≡ length (tables_of self.now) }
    {
        self.tables.len()
    }

    /// The segment table of that number.
    pub fn table(&self, i: usize) -> &Table
        requires { i < length (tables_of self.now) }
        ensures { slice_get (tables_of self.now) i ≡ Some result.now }
    {
        &self.tables[i]
    }

    /// The name of the message of that table.
    pub fn table_name(&self, i: usize) -> &[u8]
        requires { i < length (tables_of self.now) }
        ensures { option_map (λ table. table.name) (slice_get (table_names self.now) i)
            ≡ Some result.now }
    {
        if i == 0 {
            b"CONTRL"
        } else {
            self.parts.messages.items()[i - 1].name.octets()
        }
    }

    /// Where the table of that number can place one list of segments in two ways, in order.
    pub fn collisions(&self, i: usize) -> &[Collision]
        requires { i < length (tables_of self.now) }
        ensures { option_map collisions_of (slice_get (tables_of self.now) i)
            ≡ Some (map collision_seen result.now) }
    {
        self.collisions[i].items()
    }

    /// The segment of that tag, if it defines one.
    #[inline(always)]
    pub fn segment(&self, tag: Tag) -> Option<&SegmentDef>
        ensures { option_copied result ≡ named_in segment_name self.now.segments tag.octets }
    {
        let place = self.names.segments.place_of(&tag.octets)?;
        self.parts.segments.items().get(place)
    }

    /// The composite of that code, if it defines one.
    #[inline(always)]
    pub fn composite(&self, code: Code) -> Option<&CompositeDef>
        ensures { option_copied result ≡ named_in composite_name self.now.composites code.octets }
    {
        let place = self.names.composites.place_of(&code.octets)?;
        self.parts.composites.items().get(place)
    }

    /// The code list of that data element, if it has one.
    #[inline(always)]
    pub fn list(&self, element: Code) -> Option<Codes<'_>>
        ensures { result ≡ named_in list_name self.now.lists element.octets }
    {
        let place = self.names.lists.place_of(&element.octets)?;
        let list = self.parts.lists.items().get(place)?;
        let numbers = self.numbers.get(place)?;
        Some(Codes::of(list, numbers.items()))
    }
}

/// Whether these four are CONTRL's.
fn is_contrl(name: &[u8], version: &[u8], release: &[u8], agency: &[u8]) -> bool
    ensures { result ≡ is_table_named name.now version.now release.now agency.now contrl_name }
{
    b"CONTRL".as_slice() == name
        && b"D".as_slice() == version
        && b"3".as_slice() == release
        && b"UN".as_slice() == agency
}

/// The table of CONTRL, and one a message.
fn build_tables(alloc: Global, messages: &[MessageDef]) -> Result<Vec<Table>, AllocError>
    requires few { length messages.now < 4000000000 }
    requires lawful { All (λ m. table_faults m.rows ≡ []) messages.now }
    ensures { IfOk result (λ tables. tables.items
        ≡ nodes_of contrl_table_rows ∷ map (λ m. nodes_of m.rows) messages.now) }
{
    let mut tables = Vec::with_capacity(alloc, messages.len() + 1)?;
    tables.push(Table::of(alloc, contrl_rows())?)?;
    for message in messages {
        tables.push(Table::of(alloc, message.rows.items())?)?;
    }
    Ok(tables)
}

/// The collisions of each of these tables.
fn find_collisions(alloc: Global, tables: &[Table]) -> Result<Vec<List<Collision>>, AllocError>
    ensures { IfOk result (λ collisions.
        map (map collision_seen) collisions.items ≡ map collisions_of tables.now) }
{
    let mut collisions = Vec::with_capacity(alloc, tables.len())?;
    for table in tables {
        collisions.push(List::of(list_collisions(alloc, table)?))?;
    }
    Ok(collisions)
}

/// The numbers of the codes of each of these lists.
fn number_lists(alloc: Global, lists: &[CodeList]) -> Result<Vec<List<u64>>, AllocError>
    ensures long { IfOk result (λ numbers. length numbers.items ≡ length lists.now) }
    ensures numbers { IfOk result (λ numbers. AreNumbersOf lists.now numbers.items) }
{
    let mut numbers = Vec::with_capacity(alloc, lists.len())?;
    for list in lists {
        numbers.push(numbers_of(alloc, list.values.items())?)?;
    }
    Ok(numbers)
}
