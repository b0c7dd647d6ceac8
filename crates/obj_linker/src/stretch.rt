//! A stretch of an object in which names are.
ghost use Rattle.std.specs.Prelude.{◌≡◌, ◌==◌, ◌++◌, ℕ, List, [], IfOk, OnOk, drop, length};
ghost use Rattle.std.specs.List.{before_first};
ghost use Rattle.obj_reader.specs.Files.{files_of};
ghost use Rattle.obj_linker.specs.Naming.{IsStretch};
ghost use Rattle.obj_linker.specs.Texts.{AreApart, Keeps};

use crate::image::{front_of, object_bytes, rest_of};
use crate::name_place::before_zero;
use crate::reach::Reach;
use crate::texts::{Texts, numbers_within};
use std::alloc::{AllocError, Global};

/// The numbers of the texts that begin at the places of a stretch of an object, each up to a 00.
#[derive(Drop)]
pub struct Stretch {
    pub object: u32,
    /// The first of the places.
    pub first: usize,
    pub numbers: Vec<usize>,
}

impl Stretch {
    ghost use Rattle.std.specs.Prelude.{◌≡◌, ◌-◌, ◌≤◌, [], Some, IfSome, slice_get};

    /// No places.
    pub fn empty(alloc: Global) -> Stretch
        ensures { result.numbers.items ≡ [] }
    {
        Stretch {
            object: 0,
            first: 0,
            numbers: Vec::new(alloc),
        }
    }

    /// The number of the text at a place of an object, if it is one of these.
    pub fn number_at(&self, object: u32, place: usize) -> Option<usize>
        ensures object { IfSome result (λ _. object ≡ self.now.object) }
        ensures behind { IfSome result (λ _. self.now.first ≤ place) }
        ensures number { IfSome result (λ n.
            slice_get self.now.numbers.items (place - self.now.first) ≡ Some n) }
    {
        if self.object != object || place < self.first {
            return None;
        }
        self.numbers.get(place - self.first).copied()
    }
}

/// The stretch of an object where names begin, up to the end of the last.
pub fn stretch_of(
    alloc: Global,
    texts: &mut Texts,
    objects: &[Vec<u8>],
    object: u32,
    reach: Reach,
) -> Result<Stretch, AllocError>
    requires { AreApart texts.old.keys }
    ensures stretch { IfOk result (IsStretch (files_of objects.now) texts.new.keys) }
    ensures kept { OnOk result (Keeps texts.old.keys texts.new.keys) }
    ensures apart { OnOk result (AreApart texts.new.keys) }
{
    let rest = rest_of(object_bytes(objects, object), reach.first);
    let bytes = names_in(rest, reach.last.saturating_sub(reach.first));
    let numbers = numbers_within(alloc, texts, bytes)?;
    Ok(Stretch {
        object,
        first: reach.first,
        numbers,
    })
}

/// The bytes up to the end of the text at a place.
fn names_in(bytes: &[u8], last: usize) -> &[u8]
    ensures front { result.now ++ drop (length result.now) bytes.now ≡ bytes.now }
    ensures ended { before_first (λ b. b == 0) (drop (length result.now) bytes.now) ≡ [] }
{
    match bytes.get(last..) {
        Some(_) => front_of(bytes, last + before_zero(rest_of(bytes, last)).len()),
        None => bytes,
    }
}
