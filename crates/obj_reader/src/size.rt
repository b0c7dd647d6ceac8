//! How long objects may be.
ghost use Rattle.std.specs.Prelude.{◌≡◌, ◌<◌, All, IfNone, IfSome, length, position};
ghost use Rattle.obj_reader.specs.Files.{files_of, IsShort, is_long_file, is_long_object};

/// The greatest length of an object, in bytes.
const MAX_OBJECT: usize = 67_108_864;

/// The number of the first object that has more than 67,108,864 bytes.
pub fn first_too_large(objects: &[Vec<u8>]) -> Option<usize>
    ensures first { result ≡ position is_long_file (files_of objects.now) }
    ensures bound { IfSome result (λ i. i < length objects.now) }
    ensures none { IfNone result (All IsShort (files_of objects.now)) }
{
    first_long(objects)
}

fn first_long(objects: &[Vec<u8>]) -> Option<usize>
    ensures first { result ≡ position is_long_object objects.now }
    ensures bound { IfSome result (λ i. i < length objects.now) }
{
    objects.iter().position(|o| o.len() > MAX_OBJECT)
}
