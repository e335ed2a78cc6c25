//! Known composites, found by their codes.
ghost use Rattle.std.specs.Prelude.{◌≡◌, ℕ, List, Some, None, OnOk, if◌then◌else◌};
ghost use Rattle.std.specs.Option.{option_or};
ghost use Rattle.std.specs.HashMap.{get};
ghost use Rattle.std.specs.Str.{bytes_eq};
ghost use Rattle.dir_segments.specs.Segments.{known_place};

use edi_tables::{Code, CompositeDef};
use std::alloc::{AllocError, Global};
use std::collections::HashMap;

/// Known composites, and where the first of each code is among them.
#[derive(Drop)]
pub(crate) struct KnownComposites<'a> {
    pub composites: &'a [CompositeDef],
    places: HashMap<[u8; 4], usize>,
    ghost first: { (code : List ℕ) → get bytes_eq places code ≡ known_place composites.now code },
}

impl KnownComposites<'_> {
    ghost use Rattle.std.specs.Prelude.{◌≡◌, IfOk};
    ghost use Rattle.std.specs.Option.{option_copied};
    ghost use Rattle.dir_segments.specs.Segments.{known_composite};

    /// These composites, to be found by their codes.
    pub fn new(
        alloc: Global,
        composites: &[CompositeDef],
    ) -> Result<KnownComposites<'_>, AllocError>
        ensures { IfOk result (λ known. known.composites.now ≡ composites.now) }
    {
        let mut places = HashMap::new(alloc);
        for (place, composite) in composites.iter().enumerate() {
            note_place(&mut places, &composite.code, place)?;
        }
        Ok(KnownComposites { composites, places })
    }

    /// The first composite of a code, if there is one.
    pub fn find(&self, code: &Code) -> Option<&CompositeDef>
        ensures { option_copied result ≡ known_composite self.now.composites.now code.now.octets }
    {
        let place = self.places.get(&code.octets)?;
        self.composites.get(*place)
    }
}

/// Notes where a composite of a code is, unless one of that code comes before it.
fn note_place(
    places: &mut HashMap<[u8; 4], usize>,
    code: &Code,
    place: usize,
) -> Result<(), AllocError>
    ensures { OnOk result ((other : List ℕ) → get bytes_eq places.new other
        ≡ option_or (get bytes_eq places.old other)
        (if bytes_eq code.now.octets other then Some place else None)) }
{
    if !places.contains_key(&code.octets) {
        places.insert(code.octets, place)?;
    }
    Ok(())
}
