//! Small numbers for the tags of a table: one tag has one number, and few tags of a table share theirs with another.
ghost use Rattle.std.specs.Prelude.{◌≡◌, ◌<◌, ◌%◌};
ghost use Rattle.collision_check.specs.Ranks.{rank_of, tag_number};

use edi_tables::{Node, Tag};

// How many places there are. By this prime number few tags of a real table share a place.
const PLACES: usize = 1979;

/// How many numbers there are.
pub const RANKS: usize = 64;

/// The number of each tag of a table: tags are numbered in the order in which they come. Tags that share a place share
/// their number, and so do those of a table of very many tags.
#[derive(Drop)]
pub struct Ranks {
    places: [u8; PLACES],
}

impl Ranks {
    /// No tag has a number of its own yet.
    pub fn none() -> Ranks {
        Ranks {
            places: [0; PLACES],
        }
    }

    /// Numbers the tags of these nodes.
    pub fn number(&mut self, nodes: &[Node]) {
        let mut last = 0;
        for node in nodes {
            if let Some(tag) = node.tag {
                let place = &mut self.places[place_of(tag)];
                if *place == 0 {
                    last = last % 255 + 1;
                    *place = last;
                }
            }
        }
    }

    /// The number of a tag.
    #[inline]
    pub fn rank(&self, tag: Tag) -> usize
        ensures value { result ≡ rank_of self.now tag.octets }
        ensures small { result < 64 }
    {
        usize::from(self.places[place_of(tag)]) % RANKS
    }
}

// The place of a tag: a remainder of its octets as one number, the first of them lowest.
#[inline]
fn place_of(tag: Tag) -> usize
    ensures value { result ≡ tag_number tag.octets % 1979 }
    ensures small { result < 1979 }
{
    let [first, second, third] = tag.octets;
    (usize::from(first) + usize::from(second) * 256 + usize::from(third) * 65536) % PLACES
}
