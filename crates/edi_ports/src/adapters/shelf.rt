//! The files of the folder that the program runs in.
ghost use Rattle.std.specs.Prelude.{◌≡◌, ◌≢◌, ◌<◌, ◌^◌, None, false};

use crate::adapters::calls::{raise, take_once};
use crate::{Opened, Shelf, Taken};
use std::fs;
use std::io::ErrorKind;
use std::rt::Files;

// What is held of the file that is open: nothing where none is. A file whose end was read is let go, since its number
// may be that of a standard input that was closed: a read of that input is then to fail, and not to read the file.
#[derive(Drop)]
enum Held<F> {
    Nothing,
    File(F),
    Ended,
}

/// The files of the folder that the program runs in, each opened by its name as a path. One call makes at most one call
/// of std's open or read; the end of a file is read once, and told from then on. A file that isn't found is absent; each
/// other error is a fault, and so is a name that isn't UTF-8, which can't name a file here.
#[derive(Drop)]
pub struct FolderShelf<R: Files> {
    files: R,
    held: Held<R::File>,
    faults: u64,
    ghost fits: { faults < 2 ^ 64 },
}

impl<R: Files> FolderShelf<R> {
    /// A shelf over these files, none of them open.
    pub fn new(files: R) -> FolderShelf<R>
        ensures is_open { ⟦<FolderShelf<R> as Shelf>⟧.is_open result ≡ false }
        ensures faults { ⟦<FolderShelf<R> as Shelf>⟧.faults result ≡ 0 }
    {
        FolderShelf {
            files,
            held: Held::Nothing,
            faults: 0,
        }
    }
}

impl<R: Files> Shelf for FolderShelf<R> {
    ghost use Rattle.edi_ports.specs.FolderShelf.{rest_in, is_open_in};

    ghost files = { λ _. None };

    ghost rest = { λ s. rest_in R.File.remaining s.held };

    ghost is_open = { λ s. is_open_in s.held };

    ghost faults = { λ s. s.faults };

    ghost is_steady = { λ _. ⊥ };

    ghost fits = { λ shelf. shelf.fits };

    fn open(&mut self, name: &[u8]) -> Opened {
        self.held = Held::Nothing;
        let Ok(path) = str::from_utf8(name) else {
            raise(&mut self.faults);
            return Opened::Failed;
        };
        match fs::open(&self.files, path) {
            Ok(file) => {
                self.held = Held::File(file);
                Opened::Open
            }
            Err(e) => {
                let opened = unopened(e.kind());
                if opened == Opened::Failed {
                    raise(&mut self.faults);
                }
                opened
            }
        }
    }

    fn take(&mut self, buffer: &mut [u8]) -> Taken {
        let taken = match &mut self.held {
            Held::Nothing => unreachable!(),
            Held::File(file) => take_once(file, buffer, &mut self.faults),
            Held::Ended => Taken::End,
        };
        if matches!(taken, Taken::End) {
            self.held = Held::Ended;
        }
        taken
    }
}

// What a failed open answers, by the kind of its error: the file is absent exactly where it isn't found.
fn unopened(kind: ErrorKind) -> Opened
    ensures absent { kind ≡ ErrorKind.NotFound → result ≡ Opened.Absent }
    ensures failed { kind ≢ ErrorKind.NotFound → result ≡ Opened.Failed }
    ensures closed { result ≢ Opened.Open }
{
    match kind {
        ErrorKind::NotFound => Opened::Absent,
        _ => Opened::Failed,
    }
}
