//! The answer to an interchange.
use edi_tables::Chunk;

/// The octets of an acknowledgement; or that an interchange has no UNB, or a bad one, so that nobody can be answered.
#[derive(Debug, Drop)]
pub enum Contrl {
    Octets(Chunk),
    NoUnb,
    BadUnb,
}
