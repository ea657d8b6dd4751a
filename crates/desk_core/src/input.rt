//! The current input of a desk that never fails.
ghost use Rattle.std.specs.Prelude.{◌≡◌, Some};
ghost use Rattle.desk_core.specs.Desk.{content_of};
ghost use Rattle.desk_core.specs.Stored.{lookup};
ghost use Rattle.desk_core.specs.Inputs.{name_of, held_by, opened_name};
ghost use Rattle.desk_core.specs.Private.Inputs.{apart_from, InputStands};

use crate::stored::{OpenInput, Stored, find};

/// The current input of a desk that never fails.
#[derive(Clone, Copy)]
pub enum CurrentInput {
    /// None.
    Absent,
    /// That of a name that no file has. It has no bytes, and its name is not kept.
    Missing,
    /// A file.
    File(OpenInput),
}

impl CurrentInput {
    /// The input that is opened for a name.
    pub fn of(files: &[Stored], name: &str) -> CurrentInput
        ensures stands { InputStands files.now result }
        ensures named { name_of files.now result ≡ opened_name name.now (lookup files.now name.now) }
        ensures bytes { held_by files.now result ≡ Some (content_of (lookup files.now name.now)) }
    {
        match find(files, name) {
            Some(file) => CurrentInput::File(OpenInput {
                file,
                len: files[file].bytes.len(),
            }),
            None => CurrentInput::Missing,
        }
    }

    /// The input, unless it is the file of that name.
    pub fn apart_from(self, files: &[Stored], name: &str) -> CurrentInput
        requires { InputStands files.now self }
        ensures { result ≡ apart_from files.now self name.now }
    {
        match self {
            CurrentInput::File(input) if files[input.file].name.as_slice() == name.as_bytes() => {
                CurrentInput::Absent
            }
            input => input,
        }
    }
}
