//! Files, and standard input under the name `-`.

ghost use Rattle.std.specs.Prelude.{◌≡◌, ℕ, ◌+◌, ◌^◌, ◌<◌, ◌≤◌, [], None, IsErrOf, OnOk, vec_len, ⊤};
ghost use Rattle.hs_io.specs.Counts.{next_count};

use hs_io::{FileShelf, LoadFail, Shelf, load_from};
use std::io::Read;
use std::marker::Model;
use std::rt::Files;

/// The name of standard input.
const INPUT: &[u8] = b"-";

/// The files of the system, each under its path, and standard input under the name `-`. The first load of `-`
/// reads the input to its end, and later loads find nothing more there. Contracts do not know the bytes of any
/// name, and every name is granted. They see only the count of faults, which rises at each error of the system
/// and at a name that is no path.
#[derive(Drop)]
pub struct InputShelf<R: Files, I: Read + Drop> {
    files: FileShelf<R>,
    input: Option<I>,
    faults: u64,
}

impl<R: Files, I: Read + Drop> Model for InputShelf<R, I> {
    ghost Value = { ℕ };

    ghost view = { λ s. s.faults };
}

impl<R: Files, I: Read + Drop> InputShelf<R, I> {
    /// A shelf of these files and this input, with no fault so far.
    pub fn new(files: R, input: I) -> InputShelf<R, I>
        ensures { result ≡ 0 }
    {
        InputShelf {
            files: FileShelf::new(files),
            input: Some(input),
            faults: 0,
        }
    }
}

impl<R: Files, I: Read + Drop> Shelf for InputShelf<R, I> {
    ghost holds = { λ _ _. None };

    ghost grants = { λ _ _. ⊤ };

    ghost faults = { λ count. count };

    fn load(&mut self, name: &[u8], limit: usize, into: &mut Vec<u8>) -> Result<(), LoadFail>
        requires empty { into.old.items ≡ [] }
        requires limited { limit < 2 ^ 32 }
        ensures within { OnOk result (vec_len into.new ≤ limit) }
        ensures one_more { IsErrOf result LoadFail.TooLong → vec_len into.new ≡ limit + 1 }
        ensures never_falls { self.old ≤ self.new }

        // The count rises at each failure, and at nothing else.
        ensures counted { IsErrOf result LoadFail.Failed → self.new ≡ next_count self.old }
        ensures not_counted { ¬ IsErrOf result LoadFail.Failed → self.new ≡ self.old }
    {
        let loaded = if name == INPUT {
            load_input(&mut self.input, limit, into)
        } else {
            self.files.load(name, limit, into)
        };
        if loaded == Err(LoadFail::Failed) {
            self.faults = self.faults.saturating_add(1);
        }
        loaded
    }
}

/// Loads what is left of the input: all of it, or nothing if it was loaded before.
fn load_input<I: Read + Drop>(
    input: &mut Option<I>,
    limit: usize,
    into: &mut Vec<u8>,
) -> Result<(), LoadFail>
    requires empty { into.old.items ≡ [] }
    requires limited { limit < 2 ^ 32 }
    ensures within { OnOk result (vec_len into.new ≤ limit) }
    ensures one_more { IsErrOf result LoadFail.TooLong → vec_len into.new ≡ limit + 1 }
{
    match input.take() {
        Some(mut reader) => load_from(&mut reader, limit, into),
        None => Ok(()),
    }
}
