//! The words that a reader has met.
ghost use Rattle.std.specs.Prelude.{◌≡◌, not, [], ◌∷◌, ◌++◌, IfOk, OnOk, OnErr, if◌then◌else◌};
ghost use Rattle.std.specs.Bool.{Decides};
ghost use Rattle.std.specs.List.{list_any};
ghost use Rattle.std.specs.Str.{bytes_eq};
ghost use Rattle.edi_octets.specs.Ranked.{IsAbove, IsRising, is_among, rank_of};

use crate::fault::{DirKind, DirStop};
use crate::lines::LineText;
use edi_tables::Chunk;
use std::alloc::{AllocError, Global};
use std::cmp::Ordering;
use std::collections::BTreeSet;
use std::marker::Model;

/// Words in the order in which they came, each once. A word is found by halving, whatever the words are.
#[derive(Debug, Drop)]
pub struct EarlierNames<'a> {
    words: Vec<&'a [u8]>,
    // Those that rank above all words before them, as most do in a directory file: one comparison shows them new.
    rising: Vec<&'a [u8]>,
    // The other words.
    others: BTreeSet<&'a [u8]>,
}

impl<'a> Model for EarlierNames<'a> {
    ghost use Rattle.std.specs.Prelude.{List, ℕ, map};
    ghost use Rattle.edi_octets.specs.Ranked.{IsKept};

    ghost Value = { List (List ℕ) };

    ghost view = { λ s. map (λ word. word.now) s.words.items };

    ghost invariant = { λ s. IsKept (λ word. word.now) s.words.items s.rising.items s.others.keys };
}

impl<'a> EarlierNames<'a> {
    ghost use Rattle.std.specs.Prelude.{ℕ, Bool, List, map, Some, None};
    ghost use Rattle.edi_tables.specs.First.{IsVerdict, unless_faulty};
    ghost use Rattle.edi_octets.specs.DirStop.{fault_in};
    ghost use Rattle.edi_octets.specs.Head.{head_faults, head_field};
    ghost use Rattle.edi_octets.specs.Left.{line_shown};
    ghost use Rattle.edi_octets.specs.Lines.{Line};
    ghost use Rattle.edi_octets.specs.Profile.{fields_of, first_field};

    /// No words yet.
    pub fn new(alloc: Global) -> Self
        ensures { result ≡ [] }
    {
        EarlierNames {
            words: Vec::new(alloc),
            rising: Vec::new(alloc),
            others: BTreeSet::new(alloc),
        }
    }

    /// No words yet, and room for so many that come in order.
    pub fn with_capacity(alloc: Global, words: usize) -> Result<Self, AllocError>
        ensures { IfOk result (λ names. names ≡ []) }
    {
        Ok(EarlierNames {
            words: Vec::with_capacity(alloc, words)?,
            rising: Vec::with_capacity(alloc, words)?,
            others: BTreeSet::new(alloc),
        })
    }

    /// Puts a word at the end unless it is there, and tells whether it is new.
    pub fn add(&mut self, word: &'a [u8]) -> Result<bool, AllocError>
        ensures new { IfOk result (λ new. new ≡ not (list_any (bytes_eq word.now) self.old)) }
        ensures words { IfOk result
            (λ new. self.new ≡ (if new then self.old ++ word.now ∷ [] else self.old)) }
        ensures err { OnErr result (self.new ≡ self.old) }
    {
        self.words.reserve(1)?;
        if is_above(&self.rising, word) {
            self.rising.push(word)?;
            self.words.push(word)?;
            return Ok(true);
        }
        if is_found(&self.rising, word) || !self.others.insert(word)? {
            return Ok(false);
        }
        self.words.push(word)?;
        Ok(true)
    }

    /// Judges the head of an entry after others, whose codes are seen, with the code that its first field is,
    /// if it is one: a code and a name, else `bad-code`, and none of those seen, else `twice`. It joins them
    /// unless that is an error.
    pub fn read_head<C: Copy>(&mut self, head: &LineText<'a>, code: Option<C>) -> Result<C, DirStop>
        ensures judged { (is_code : List ℕ → Bool) (coded : C) (earlier : List (List Line))
            → code ≡ (if is_code (first_field (fields_of head.now.octets.now)) then Some coded
            else None)
            → self.old ≡ map head_field earlier
            → IsVerdict (λ code. code) fault_in result
            (unless_faulty (head_faults is_code earlier (line_shown head.now)) coded) }
        ensures joins { OnOk result
            (self.new ≡ self.old ++ first_field (fields_of head.now.octets.now) ∷ []) }
        ensures err { OnErr result (self.new ≡ self.old) }
    {
        let Some(code) = code else {
            return Err(head.breaks(DirKind::BadCode));
        };
        if !head.has_name() {
            return Err(head.breaks(DirKind::BadCode));
        }
        if !self.add(head.first_field())? {
            return Err(head.breaks(DirKind::Twice));
        }
        Ok(code)
    }

    /// Copies of the words, in order.
    pub fn copies(&self, alloc: Global) -> Result<Vec<Chunk>, AllocError>
        ensures { IfOk result (λ copies. copies.items ≡ self.now) }
    {
        let words = self.words.as_slice();
        let mut copies = Vec::with_capacity(alloc, words.len())?;
        for word in words {
            copies.push(Chunk::of(alloc, word)?)?;
        }
        Ok(copies)
    }
}

/// How two words rank: the shorter one below, and of two of one length the first in octet order. Numbers that
/// count up rise so.
fn rank(one: &[u8], other: &[u8]) -> Ordering
    ensures { result ≡ rank_of one.now other.now }
{
    match one.len().cmp(&other.len()) {
        Ordering::Equal => one.cmp(other),
        unequal => unequal,
    }
}

/// Whether a word ranks above all of these, which rise.
fn is_above(rising: &[&[u8]], word: &[u8]) -> bool
    requires { IsRising (λ one. one.now) rising.now }
    ensures { Decides result (IsAbove (λ one. one.now) rising.now word.now) }
{
    match rising.last() {
        Some(last) => rank(last, word).is_lt(),
        None => true,
    }
}

/// Whether a word is one of these, which rise. It is looked for by halving.
fn is_found(rising: &[&[u8]], word: &[u8]) -> bool
    requires { IsRising (λ one. one.now) rising.now }
    ensures { result ≡ is_among (λ one. one.now) rising.now word.now }
{
    rising.binary_search_by(|one| rank(one, word)).is_ok()
}
