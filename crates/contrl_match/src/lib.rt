//! What a partner's acknowledgement finds in the text that it answers: the places that it names.
#![tactic(auto)]

mod finding;
mod head_index;
mod judge;
mod lead;
mod pass;
mod print;
mod spot;
mod stop;
mod told;
mod values;

pub use finding::{Finding, Where};
pub use lead::match_contrl;
pub use print::print_findings;
pub use stop::MatchStop;
