//! A directory from its parts.
ghost use Rattle.std.specs.Prelude.{◌≡◌, ◌<◌, IfOk, length};
ghost use Rattle.edi_tables.specs.First.{IsVerdict};
ghost use Rattle.dir_compile.specs.Directory.{directory_of};
ghost use Rattle.dir_compile.specs.Forms.{HasForms};
ghost use Rattle.dir_compile.specs.Ordered.{IsOrdered};
ghost use Rattle.dir_compile.specs.Stop.{fault_in};

use crate::Directory;
use crate::order::ordered;
use crate::parts::Parts;
use crate::stop::CompileStop;
use crate::verdict::judge_parts;
use std::alloc::Global;

/// The directory of these parts, where they break no rule; else their first fault.
pub fn compile(alloc: Global, parts: Parts) -> Result<Directory, CompileStop>
    requires few { length parts.messages < 4000000000 }
    requires forms { HasForms parts }
    ensures answers { IsVerdict (λ directory. directory) fault_in result (directory_of parts) }
    ensures ordered { IfOk result (IsOrdered parts) }
{
    judge_parts(alloc, &parts)?;
    Ok(Directory::of(alloc, ordered(alloc, parts))?)
}
