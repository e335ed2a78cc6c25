//! A directory from its store.
ghost use Rattle.std.specs.Prelude.{◌≡◌, ◌≤◌, Ok, IfOk, length};
ghost use Rattle.edi_tables.specs.First.{IsVerdict};
ghost use Rattle.dir_compile.specs.declared.parts.Parts.{Parts};
ghost use Rattle.dir_compile.specs.Directory.{IsDirectory};
ghost use Rattle.dir_store.specs.Spelling.{IsStoreOf};
ghost use Rattle.dir_store.specs.Stop.{fault_in};
ghost use Rattle.dir_store.specs.Store.{definitions_at, ended, first_in, parts_at, store_of};
ghost use Rattle.dir_store.specs.Lines.{lined};
ghost use Rattle.dir_store.specs.Rules.{labels_in};
ghost use Rattle.dir_store.specs.LineStop.{left_in};
ghost use Rattle.edi_octets.specs.declared.octets.TheConstants.{LONGEST_TEXT};

use crate::earlier::EarlierDefinitions;
use crate::entry::read_section;
use crate::hints::Hints;
use crate::label_line::read_labels;
use crate::line::read_line;
use crate::line_stop::Stop;
use crate::stop::StoreStop;
use crate::version::StoreVersion;
use dir_compile::{Directory, Parts};
use edi_octets::Labels;
use edi_tables::{CompositeDef, ElementDef, List, SegmentDef};
use std::alloc::Global;

/// The directory that a store of at most 4,194,304 octets spells, in version 2 or in version 1; else the place of its
/// first fault. It is judged by version 1 exactly where the first line is `EDIDIR1`.
pub fn read_store(alloc: Global, file: &[u8]) -> Result<Directory, StoreStop>
    requires { length file.now ≤ LONGEST_TEXT }
    // What is read is spelled so.
    ensures spelled { IfOk result (λ directory. IsStoreOf file.now directory) }
    // What is spelled so is read, unless memory runs out.
    ensures again { (parts : Parts) → IsDirectory parts → IsStoreOf file.now parts
        → IsVerdict (λ directory. directory) fault_in result (Ok parts) }
    // Which fault it is.
    ensures answers { IsVerdict (λ directory. directory) fault_in result (store_of file.now) }
    // Nothing else is a store: the octets of one are a spelling of a directory.
    ensures only { (parts : Parts) → store_of file.now ≡ Ok parts
        → IsStoreOf file.now parts × IsDirectory parts }
{
    let parts = match read_parts(alloc, file) {
        Ok(parts) => parts,
        Err(stop) => return Err(StoreStop::of(file.len(), stop)),
    };
    // The parts that a store spells are a directory.
    match Directory::of(alloc, parts) {
        Ok(directory) => Ok(directory),
        Err(_) => Err(StoreStop::Memory),
    }
}

// The parts that a store spells.
#[tactic(auto, unfolding(crate::specs::Store::parts_at))]
fn read_parts(alloc: Global, octets: &[u8]) -> Result<Parts, Stop>
    ensures { IsVerdict (λ parts. parts) left_in result (parts_at octets.now) }
{
    let (version, rest) = read_first(octets)?;
    let (labels, rest) = read_second(alloc, rest)?;
    read_definitions(alloc, version, labels, rest)
}

// The definitions of the sections in this version, with these labels.
#[tactic(auto, unfolding(crate::specs::Store::definitions_at))]
fn read_definitions(
    alloc: Global,
    version: StoreVersion,
    labels: Labels,
    octets: &[u8],
) -> Result<Parts, Stop>
    ensures { IsVerdict (λ parts. parts) left_in result (definitions_at version labels octets.now) }
{
    let no_hints = Hints::none();
    let mut known = EarlierDefinitions {
        version,
        elements: &[],
        composites: &[],
        segments: &[],
        element_hints: &no_hints,
        segment_hints: &no_hints,
    };
    let (elements, rest) = read_section::<ElementDef>(alloc, &known, b"E", octets)?;
    let element_hints = Hints::of_elements(&elements);
    known.elements = &elements;
    known.element_hints = &element_hints;
    let (lists, rest) = read_section(alloc, &known, b"L", rest)?;
    let (composites, rest) = read_section::<CompositeDef>(alloc, &known, b"C", rest)?;
    known.composites = &composites;
    let (segments, rest) = read_section::<SegmentDef>(alloc, &known, b"S", rest)?;
    let segment_hints = Hints::of_segments(&segments);
    known.segments = &segments;
    known.segment_hints = &segment_hints;
    let (messages, rest) = read_section(alloc, &known, b"T", rest)?;
    read_end(rest)?;
    Ok(Parts {
        version: labels.version,
        release: labels.release,
        agency: labels.agency,
        elements: List::of(elements),
        lists: List::of(lists),
        composites: List::of(composites),
        segments: List::of(segments),
        messages: List::of(messages),
    })
}

// The version that the first line names, and the octets after it.
fn read_first(octets: &[u8]) -> Result<(StoreVersion, &[u8]), Stop>
    ensures { IsVerdict (λ x. (x.0, x.1.now)) left_in result (lined first_in octets.now) }
{
    let (line, rest) = read_line(octets)?;
    let version = read_version(line).ok_or(Stop::at(octets))?;
    Ok((version, rest))
}

// The version that a line names.
fn read_version(line: &[u8]) -> Option<StoreVersion>
    ensures { result ≡ first_in line.now }
{
    if line == b"EDIDIR1".as_slice() {
        Some(StoreVersion::First)
    } else if line == b"EDIDIR2".as_slice() {
        Some(StoreVersion::Second)
    } else {
        None
    }
}

// The labels on the second line, and the octets after it.
fn read_second(alloc: Global, octets: &[u8]) -> Result<(Labels, &[u8]), Stop>
    ensures { IsVerdict (λ x. (x.0, x.1.now)) left_in result (lined labels_in octets.now) }
{
    let (line, rest) = read_line(octets)?;
    match read_labels(alloc, line)? {
        Some(labels) => Ok((labels, rest)),
        None => Err(Stop::at(octets)),
    }
}

// Finds that nothing follows.
fn read_end(octets: &[u8]) -> Result<(), Stop>
    ensures { IsVerdict (λ end. end) left_in result (ended octets.now) }
{
    if octets.is_empty() {
        Ok(())
    } else {
        Err(Stop::at(octets))
    }
}
