ghost use Rattle.std.specs.Prelude.{◌≡◌, ℕ, ◌+◌, ◌^◌, ◌<◌, ◌≤◌, [], None, IsErrOf, OnOk, vec_len, ⊤};
ghost use Rattle.hs_io.specs.Counts.{next_count};

use crate::reader::load_from;
use crate::{LoadFail, Shelf};
use std::marker::Model;
use std::rt::Files;
use std::{fs, str};

/// The files of the system, each under its path. Contracts do not know the bytes of any file, and every name is
/// granted. They see only the count of faults, which rises at each error of the system and at a name that is no
/// path.
#[derive(Drop)]
pub struct FileShelf<R: Files> {
    files: R,
    faults: u64,
}

impl<R: Files> Model for FileShelf<R> {
    ghost Value = { ℕ };

    ghost view = { λ s. s.faults };
}

impl<R: Files> FileShelf<R> {
    /// A shelf of these files, with no fault so far.
    pub fn new(files: R) -> FileShelf<R>
        ensures { result ≡ 0 }
    {
        FileShelf { files, faults: 0 }
    }
}

impl<R: Files> Shelf for FileShelf<R> {
    ghost holds = { λ _ _. None };

    ghost grants = { λ _ _. ⊤ };

    ghost faults = { λ count. count };

    fn load(&mut self, name: &[u8], limit: usize, into: &mut Vec<u8>) -> Result<(), LoadFail>
        requires empty { into.old.items ≡ [] }
        requires limited { limit < 2 ^ 32 }
        ensures within { OnOk result (vec_len into.new ≤ limit) }
        ensures one_more { IsErrOf result LoadFail.TooLong → vec_len into.new ≡ limit + 1 }
        ensures never_falls { self.old ≤ self.new }

        // The count rises at each failure, and at nothing else.
        ensures counted { IsErrOf result LoadFail.Failed → self.new ≡ next_count self.old }
        ensures not_counted { ¬ IsErrOf result LoadFail.Failed → self.new ≡ self.old }
    {
        let loaded = load_file(&self.files, name, limit, into);
        if loaded == Err(LoadFail::Failed) {
            self.faults = self.faults.saturating_add(1);
        }
        loaded
    }
}

/// Loads one file.
fn load_file<R: Files>(
    files: &R,
    name: &[u8],
    limit: usize,
    into: &mut Vec<u8>,
) -> Result<(), LoadFail>
    requires empty { into.old.items ≡ [] }
    requires limited { limit < 2 ^ 32 }
    ensures within { OnOk result (vec_len into.new ≤ limit) }
    ensures one_more { IsErrOf result LoadFail.TooLong → vec_len into.new ≡ limit + 1 }
{
    let Ok(path) = str::from_utf8(name) else {
        return Err(LoadFail::Failed);
    };
    match fs::open(files, path) {
        Ok(mut file) => load_from(&mut file, limit, into),
        Err(_) => Err(LoadFail::Failed),
    }
}
