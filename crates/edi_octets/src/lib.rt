//! Texts as lists of octets, decimal numbers and words in them, and what all directory files share.
#![tactic(auto)]

mod cells;
mod decimal;
mod earlier_names;
mod entries;
mod fault;
mod labels;
mod lines;
mod name;
mod numeral;
mod octets;
mod profile;
mod shown;
mod words;

pub use cells::Cells;
pub use decimal::{are_digits, put_count, put_decimal, read_decimal};
pub use earlier_names::EarlierNames;
pub use entries::{Body, Entries, Entry};
pub use fault::{DirFault, DirKind, DirStop};
pub use labels::Labels;
pub use lines::{LineText, Lines};
pub use name::{is_label, is_message_name, is_name};
pub use numeral::{MOST_DIGITS, Numeral};
pub use octets::{Flat, LONGEST_TEXT, Octets};
pub use profile::{
    after_position, is_composite_code, is_element_code, is_greater, is_lone_mark, put_status,
    read_composite_code, read_element_code, read_position, read_repr, read_status,
};
pub use shown::put_shown;
pub use words::{four_words, three_words, two_words};
