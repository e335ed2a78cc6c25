//! Why the files of a shelf give no directory.
use dir_compile::{CompileKind, CompileStop};
use dir_store::StoreStop;
use edi_octets::{DirFault, DirStop};
use edi_ports::{NamedStop, Unread};
use edi_tables::Chunk;
use std::alloc::{AllocError, AllocFailed, Global};
use thiserror::Error;

/// Why a file gives no definitions: it wasn't read, or breaks a rule of its grammar.
#[derive(Clone, Copy, Debug, PartialEq, Eq)]
pub enum FileFault {
    /// There is no file of that name, or it has more than 4,194,304 octets.
    Unread(Unread),
    Grammar(DirFault),
}

/// Why files give no directory: the first file that gives no definitions; the first fault of the parts that all files
/// give, with the name that it is about; or the place of a store's first fault, in octets from 0.
#[derive(Debug, Drop)]
pub enum Refusal {
    File { name: Chunk, fault: FileFault },
    Parts { kind: CompileKind, name: Chunk },
    Store { name: Chunk, at: usize },
}

/// Why no directory was loaded: a refusal, or an accident that says nothing of the files.
#[derive(Debug, Drop, Error)]
pub enum LoadStop {
    #[error("the files give no directory")]
    Refused(Refusal),
    #[error("the shelf failed")]
    Fault,
    #[error("out of memory")]
    Memory,
}

/// Why a file gave nothing.
#[derive(Clone, Copy, Debug)]
pub enum FileStop {
    Refused(FileFault),
    Fault,
    Memory,
}

impl From<NamedStop> for FileStop {
    ghost use Rattle.std.specs.Prelude.{◌≡◌};
    ghost use Rattle.dir_load.specs.Stop.{unread_stop};

    ghost from_gives = { λ stop e. e ≡ unread_stop stop };

    fn from(stop: NamedStop) -> FileStop {
        match stop {
            NamedStop::Unread(unread) => FileStop::Refused(FileFault::Unread(unread)),
            NamedStop::Fault => FileStop::Fault,
            NamedStop::Memory => FileStop::Memory,
        }
    }
}

impl From<DirStop> for FileStop {
    ghost use Rattle.std.specs.Prelude.{◌≡◌};
    ghost use Rattle.dir_load.specs.Stop.{grammar_stop};

    ghost from_gives = { λ stop e. e ≡ grammar_stop stop };

    fn from(stop: DirStop) -> FileStop {
        match stop {
            DirStop::Fault(fault) => FileStop::Refused(FileFault::Grammar(fault)),
            DirStop::Memory => FileStop::Memory,
        }
    }
}

impl From<AllocError> for FileStop {
    ghost use Rattle.std.specs.Prelude.{◌≡◌};
    ghost use Rattle.dir_load.specs.declared.stop.FileStop.TheVariants.{Memory};

    ghost from_gives = { λ _ e. e ≡ Memory };

    fn from(_: AllocError) -> FileStop {
        FileStop::Memory
    }
}

impl<T: Drop> From<AllocFailed<T>> for FileStop {
    ghost use Rattle.std.specs.Prelude.{◌≡◌};
    ghost use Rattle.dir_load.specs.declared.stop.FileStop.TheVariants.{Memory};

    ghost from_gives = { λ _ e. e ≡ Memory };

    fn from(_: AllocFailed<T>) -> FileStop {
        FileStop::Memory
    }
}

impl From<CompileStop> for LoadStop {
    ghost use Rattle.std.specs.Prelude.{◌≡◌};
    ghost use Rattle.dir_load.specs.Stop.{compile_stop};

    ghost from_gives = { λ stop e. e ≡ compile_stop stop };

    fn from(stop: CompileStop) -> LoadStop {
        match stop {
            CompileStop::Fault { kind, name } => LoadStop::Refused(Refusal::Parts { kind, name }),
            CompileStop::Memory => LoadStop::Memory,
        }
    }
}

impl FileStop {
    ghost use Rattle.dir_load.specs.Stop.{IsStopAtFile};

    /// The stop of loading at the file of that name. Where there is no memory for the name, it is that.
    pub fn at_file(self, alloc: Global, name: &[u8]) -> LoadStop
        ensures { IsStopAtFile name.now self result }
    {
        match self {
            FileStop::Refused(fault) => match Chunk::of(alloc, name) {
                Ok(name) => LoadStop::Refused(Refusal::File { name, fault }),
                Err(_) => LoadStop::Memory,
            },
            FileStop::Fault => LoadStop::Fault,
            FileStop::Memory => LoadStop::Memory,
        }
    }
}

impl LoadStop {
    ghost use Rattle.dir_load.specs.Stop.{IsStopIn};

    /// The stop of loading in the store of that name. Where there is no memory for the name, it is that.
    pub(crate) fn in_store(alloc: Global, name: &[u8], stop: StoreStop) -> LoadStop
        ensures { IsStopIn name.now stop result }
    {
        match stop {
            StoreStop::Fault { at } => match Chunk::of(alloc, name) {
                Ok(name) => LoadStop::Refused(Refusal::Store { name, at }),
                Err(_) => LoadStop::Memory,
            },
            StoreStop::Memory => LoadStop::Memory,
        }
    }
}
