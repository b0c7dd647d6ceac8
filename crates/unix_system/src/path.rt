ghost use Rattle.std.specs.Prelude.{◌≡◌, ◌+◌, ◌≤◌, ⊤, length};
ghost use Rattle.run_definition.specs.Question.{asked_text_at, bytes};
ghost use Rattle.unix_definition.specs.Asked.{path_error, bytes_of_text};
ghost use Rattle.run_definition.specs.declared.text_place.TextPlace.TheVariants.{Zero};
ghost use Rattle.unix_system.specs.Paths.{text_of, IsShort};

use crate::errors::{BAD_ADDRESS, INVALID, NO_ENTRY};
use crate::piece::Piece;
use nv_events::View;

/// A path as a call finds it in the program's memory: its bytes up to the first 00, of which there are at most 255.
#[derive(Drop)]
pub enum Path {
    Unreadable,
    TooLong,
    Is(Piece),
}

impl Path {
    /// What a call with this path is refused with.
    pub fn refusal(&self) -> Option<i32>
        ensures { result ≡ path_error (text_of self.now) }
    {
        match self {
            Path::Unreadable => Some(BAD_ADDRESS),
            Path::TooLong => Some(INVALID),
            Path::Is(bytes) => refusal_of(bytes.as_slice()),
        }
    }

    /// The bytes of the path.
    pub fn name(&self) -> &[u8]
        requires { IsShort self.now }
        ensures value { result.now ≡ bytes_of_text (text_of self.now) }
        ensures short { length result.now ≤ 255 }
    {
        match self {
            Path::Is(bytes) => bytes.as_slice(),
            _ => &[],
        }
    }
}

fn refusal_of(name: &[u8]) -> Option<i32>
    ensures { result ≡ path_error (bytes name.now) }
{
    if name.is_empty() {
        Some(NO_ENTRY)
    } else {
        None
    }
}

/// The bytes of a path that are looked at.
const LONGEST: u32 = 256;

/// The path at an address.
pub fn read_path<M: View>(view: &M, at: u32) -> Path
    ensures text { text_of result ≡ asked_text_at (M.memory (M.content view.now)) (Zero at) }
    ensures short { IsShort result }
{
    let mut bytes = Piece::new();
    for i in 0..LONGEST {
        match byte_at(view, at, i) {
            None => return Path::Unreadable,
            Some(0) => return Path::Is(bytes),
            Some(b) => bytes.push(b),
        }
    }
    Path::TooLong
}

/// The byte so many addresses after another one. None past FFFFFFFF can be read.
pub fn byte_at<M: View>(view: &M, at: u32, i: u32) -> Option<u8>
    ensures { result ≡ (M.memory (M.content view.now)).byte (at + i) }
{
    view.laws();
    match at.checked_add(i) {
        Some(place) => view.byte(place),
        None => None,
    }
}
