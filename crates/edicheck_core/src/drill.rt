//! What a drill comes to.
ghost use Rattle.std.specs.Prelude.{◌≡◌, ◌≢◌, Some};
ghost use Rattle.drill_maker.specs.Numbers.{IsDrill};
ghost use Rattle.drill_printer.specs.Drill.{drill_text};
ghost use Rattle.run_outcome.specs.Outcome.{done};
ghost use Rattle.edicheck_core.specs.OneOf.{IsOneOf};

use drill_printer::print_drill;
use run_outcome::{Made, Status};
use std::alloc::Global;

/// What a drill of so many messages and edits for a number comes to.
pub(crate) fn tell_drill(alloc: Global, messages: u32, edits: u32, number: u64) -> Made
    requires { IsDrill messages edits number }
    ensures due { IsOneOf (result ≡ done (drill_text messages edits number))
        (Some (done (drill_text messages edits number))) ⊥ (Unit {0}) result }
    ensures steady { result.status ≢ Status.ReadFault }
{
    Made::lines(Status::Done, print_drill(alloc, messages, edits, number))
}
