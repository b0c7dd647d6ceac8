//! Where the name of a symbol is (System V ABI, "Symbol Table").
ghost use Rattle.std.specs.Prelude.{◌≡◌, ◌==◌, ◌+◌, ◌<◌, IfSome, length, position};
ghost use Rattle.std.specs.List.{before_first};
ghost use Rattle.obj_reader.specs.Files.{files_of};
ghost use Rattle.obj_linker.specs.Names as spec;

use crate::image::object_bytes;
use obj_reader::Symbol;

/// The place of the name of a symbol in its object.
pub fn place_of(s: &Symbol) -> usize
    ensures { result ≡ s.now.strings + s.now.st_name }
{
    s.strings as usize + s.st_name as usize
}

/// The name of a symbol, in the string table of its object.
#[tactic(auto, unfolding(crate::specs::Names::name_of_symbol))]
pub fn name_of<'a>(objects: &'a [Vec<u8>], s: &Symbol) -> &'a [u8]
    ensures { result.now ≡ spec.name_of_symbol (files_of objects.now) s.now }
{
    text_at(object_bytes(objects, s.object), place_of(s))
}

/// The bytes at a place, up to a 00.
fn text_at(file: &[u8], at: usize) -> &[u8]
    ensures { result.now ≡ spec.text_in_file file.now at }
{
    match file.get(at..) {
        Some(rest) => before_zero(rest),
        None => &[],
    }
}

/// The bytes up to a 00.
pub fn before_zero(bytes: &[u8]) -> &[u8]
    ensures { result.now ≡ before_first (λ b. b == 0) bytes.now }
{
    match first_zero(bytes) {
        Some(end) => &bytes[..end],
        None => bytes,
    }
}

/// The place of the first 00.
fn first_zero(bytes: &[u8]) -> Option<usize>
    ensures place { result ≡ position (λ b. b == 0) bytes.now }
    ensures bound { IfSome result (λ end. end < length bytes.now) }
{
    bytes.iter().position(|b| *b == 0)
}
