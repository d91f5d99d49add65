//! A shelf over the files of a folder.

ghost use Rattle.std.specs.Prelude.{◌≡◌, ◌≢◌, ◌<◌, ◌≤◌, ⊤, ℕ, List, length, None, Err, IfOk, IsErrOf};
ghost use Rattle.mos_bytes.specs.Causes.{HasCauseOf, risen};

use crate::shelf::read_whole;
use crate::{FetchError, ReadSource, Shelf};
use std::alloc::Global;
use std::fs;
use std::rt::Files;

/// A shelf over the current folder: a name is the path of a file there. It tells nothing of contents. Its count of faults
/// begins at 0. A file that can't be opened is a fault, and so is each error of a read. It keeps how many bytes the last fetch got.
#[derive(Drop)]
pub struct FolderShelf<R> {
    rt: R,
    faults: u64,
    // How many bytes the last fetch got.
    came: usize,
}

impl<R: Files> FolderShelf<R> {
    ghost use Rattle.mos_bytes.specs.Adapters.{shelf_faults};

    /// A shelf whose files this value of the runtime opens. It takes no memory.
    pub fn new(rt: R) -> Self
        ensures faults { shelf_faults result ≡ 0 }
    {
        FolderShelf {
            rt,
            faults: 0,
            came: 0,
        }
    }
}

// Opens a file and reads it to its end. It tells how many bytes came.
fn read_file<R: Files>(
    alloc: Global,
    rt: &R,
    name: &str,
    limit: usize,
    came: &mut usize,
) -> Result<Vec<u8>, FetchError>
    ensures whole { IfOk result (λ bytes. length bytes.items ≤ limit) }
    ensures over { result ≡ Err FetchError.TooLong → limit < came.new }
    ensures came { IfOk result (λ bytes. came.new ≡ length bytes.items) }
{
    *came = 0;
    let Ok(file) = fs::open(rt, name) else {
        return Err(FetchError::Failed);
    };
    read_whole(alloc, &mut ReadSource::new(file), limit, came)
}

impl<R: Files> Shelf for FolderShelf<R> {
    ghost use Rattle.mos_bytes.specs.Adapters.{shelf_came, shelf_faults};

    ghost content = { λ _ _. None };

    ghost faults = { shelf_faults };

    ghost Lasting = { ⊤ };

    ghost lasting = { λ _. tt };

    /// Opens the file and reads it to its end. It answers `TooLong` only where more than `limit` bytes came.
    fn fetch(&mut self, alloc: Global, name: &str, limit: usize) -> Result<Vec<u8>, FetchError>
        ensures whole { IfOk result (λ bytes. length bytes.items ≤ limit) }
        ensures over { result ≡ Err FetchError.TooLong → limit < shelf_came self.new }
        ensures came { IfOk result (λ bytes. shelf_came self.new ≡ length bytes.items) }
        ensures cause { HasCauseOf (shelf_faults self.old) (shelf_faults self.new) (IsErrOf result FetchError.Failed) }
        ensures one_fault { result ≡ Err FetchError.Failed
            → shelf_faults self.new ≡ risen (shelf_faults self.old) }
        ensures no_fault { result ≢ Err FetchError.Failed → shelf_faults self.new ≡ shelf_faults self.old }
    {
        let fetched = read_file(alloc, &self.rt, name, limit, &mut self.came);
        if let Err(FetchError::Failed) = fetched {
            self.faults = self.faults.saturating_add(1);
        }
        fetched
    }
}
