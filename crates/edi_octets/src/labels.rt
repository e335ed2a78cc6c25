//! The labels of a directory.
ghost use Rattle.std.specs.Prelude.{◌≡◌, IfOk, IfSome};
ghost use Rattle.edi_octets.specs.Labels.{HasLabelForms, labels_of};

use crate::name::is_label;
use edi_tables::Chunk;
use std::alloc::{AllocError, Global};

/// The labels of a directory: the version and the release have 1 to 3 octets, the agency 1 to 2.
#[derive(Debug, Drop)]
pub struct Labels {
    pub version: Chunk,
    pub release: Chunk,
    pub agency: Chunk,
}

impl Labels {
    /// The labels that three words are, if each of them has its form.
    pub fn of(
        alloc: Global,
        version: &[u8],
        release: &[u8],
        agency: &[u8],
    ) -> Result<Option<Labels>, AllocError>
        ensures labels { IfOk result
            (λ labels. labels ≡ labels_of (version.now, release.now, agency.now)) }
        ensures formed { IfOk result (λ labels. IfSome labels HasLabelForms) }
    {
        if !is_label(version, 3) || !is_label(release, 3) || !is_label(agency, 2) {
            return Ok(None);
        }
        Ok(Some(Labels {
            version: Chunk::of(alloc, version)?,
            release: Chunk::of(alloc, release)?,
            agency: Chunk::of(alloc, agency)?,
        }))
    }
}
