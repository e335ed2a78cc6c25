//! The verdict on parts.
ghost use Rattle.dir_compile.specs.Compile.{compile_faults};
ghost use Rattle.dir_compile.specs.Forms.{HasForms};
ghost use Rattle.dir_compile.specs.Judges.{Judges};

use crate::judge::judge_references;
use crate::names::{Names, judge_twice};
use crate::parts::Parts;
use crate::stop::CompileStop;
use std::alloc::Global;

/// Finds the first fault of the parts: a name that occurs twice, or else a definition that names something that isn't
/// there, or is none that a directory can have.
pub(crate) fn judge_parts(alloc: Global, parts: &Parts) -> Result<(), CompileStop>
    requires { HasForms parts.now }
    ensures { Judges result (compile_faults parts.now) }
{
    judge_twice(alloc, parts)?;
    let names = Names::of(alloc, parts)?;
    judge_references(alloc, parts, &names)
}
