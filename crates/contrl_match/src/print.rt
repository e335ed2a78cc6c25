//! The printed form of findings.
ghost use Rattle.std.specs.Prelude.{◌≡◌, ◌++◌, ◌∷◌, [], IfOk, OnOk, codes, decimal};
ghost use Rattle.std.specs.List.{flat_map};
ghost use Rattle.edi_octets.specs.Shown.{octet_shown};
ghost use Rattle.contrl_match.specs.Printing.{finding_line, findings_text, level_word, tag_shown};

use crate::finding::{Finding, Where};
use edi_octets::{put_count, put_decimal, put_shown};
use edi_tables::Chunk;
use std::alloc::{AllocError, Global};

/// The line `findings N` and a line `LEVEL SEGMENT TAG ELEMENT COMPONENT CODE` for each finding. Only want of memory is an
/// error.
pub fn print_findings(alloc: Global, list: &[Finding]) -> Result<Chunk, AllocError>
    ensures { IfOk result (λ text. text ≡ findings_text list.now) }
{
    let mut text = Chunk::of(alloc, b"")?;
    put_count(&mut text, b"findings", list.len())?;
    for finding in list {
        put_finding(&mut text, finding)?;
    }
    Ok(text)
}

fn put_finding(text: &mut Chunk, finding: &Finding) -> Result<(), AllocError>
    ensures { OnOk result (text.new ≡ text.old ++ finding_line finding.now) }
{
    put_about(text, finding)?;
    put_spaced(text, finding.element)?;
    put_spaced(text, finding.component)?;
    put_code(text, finding.code.octets())
}

// What a finding is about: its level, its segment and its tag.
fn put_about(text: &mut Chunk, finding: &Finding) -> Result<(), AllocError>
    ensures { OnOk result (text.new ≡ text.old ++ (level_word finding.now.level
        ++ codes " " ++ decimal finding.now.segment ++ codes " " ++ tag_shown finding.now.tag)) }
{
    text.add(word_of(finding.level))?;
    put_spaced(text, finding.segment)?;
    text.add(b" ")?;
    put_tag(text, finding.tag.octets())
}

// A number after a space.
fn put_spaced(text: &mut Chunk, n: u32) -> Result<(), AllocError>
    ensures { OnOk result (text.new ≡ text.old ++ (codes " " ++ decimal n)) }
{
    text.add(b" ")?;
    put_decimal(text, u64::from(n))
}

// A code after a space, and the end of the line.
fn put_code(text: &mut Chunk, code: &[u8]) -> Result<(), AllocError>
    ensures { OnOk result
        (text.new ≡ text.old ++ (codes " " ++ flat_map octet_shown code.now ++ 10 ∷ [])) }
{
    text.add(b" ")?;
    put_octets(text, code)?;
    text.add(b"\n")
}

fn word_of(level: Where) -> &'static [u8]
    ensures { result.now ≡ level_word level }
{
    match level {
        Where::Interchange => b"interchange",
        Where::Group => b"group",
        Where::Message => b"message",
        Where::Segment => b"segment",
    }
}

// The tag that is named, or `-`.
fn put_tag(text: &mut Chunk, tag: &[u8]) -> Result<(), AllocError>
    ensures { OnOk result (text.new ≡ text.old ++ tag_shown tag.now) }
{
    if tag.is_empty() {
        text.add(b"-")
    } else {
        put_octets(text, tag)
    }
}

// Octets, as they are shown.
fn put_octets(text: &mut Chunk, octets: &[u8]) -> Result<(), AllocError>
    ensures { OnOk result (text.new ≡ text.old ++ flat_map octet_shown octets.now) }
{
    for octet in octets {
        put_shown(text, *octet)?;
    }
    Ok(())
}
