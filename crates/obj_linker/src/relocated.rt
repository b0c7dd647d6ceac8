//! The words of the sites, in their order (MIPS psABI, "Relocation Types").
ghost use Rattle.std.specs.Prelude.{◌≡◌, ◌+◌, ◌*◌, ◌%◌, ◌^◌, ◌<◌, IfErr, OnOk, None, Some, false, if◌then◌else◌};
ghost use Rattle.obj_reader.specs.Fault.{IsAnswer};
ghost use Rattle.obj_linker.specs.Sites as spec;

use crate::site::Site;
use elf_definition::ObjFault;
use nv_words::{put_word, word_at};
use obj_reader::{ObjError, R_MIPS_26, R_MIPS_32, R_MIPS_HI16, R_MIPS_LO16, refusal};

/// Writes the word of each site into the image, one site after the other.
///
/// # Errors
/// `Refused` with the first jump that cannot reach its target.
pub fn relocate(image: &mut [u8], sites: &[Site]) -> Result<(), ObjError>
    ensures refused { IfErr result (IsAnswer
        (spec.site_fault_of 13 (spec.first_far image.old sites.now))) }
    ensures passed { OnOk result (spec.first_far image.old sites.now ≡ None) }
    ensures bytes { OnOk result (image.new ≡ spec.relocated image.old sites.now) }
{
    let mut rest = sites;
    while let Some((site, others)) = rest.split_first() {
        change(image, site)?;
        rest = others;
    }
    Ok(())
}

/// Writes the word of a site.
fn change(image: &mut [u8], site: &Site) -> Result<(), ObjError>
    ensures refused { IfErr result (IsAnswer (spec.site_fault_of 13
        (if spec.is_far site.now (spec.site_word image.old site.now.at)
        then Some site.now else None))) }
    ensures passed { OnOk result
        (spec.is_far site.now (spec.site_word image.old site.now.at) ≡ false) }
    ensures bytes { OnOk result (image.new ≡ spec.changed image.old site.now) }
{
    let word = word_in(image, site.at);
    let low_word = word_in(image, site.low_at);
    if is_far(site, word) {
        return Err(refusal(site.object, ObjFault::RANGE, site.r_offset));
    }
    put_word(image, site.at, new_word(site, word, low_word));
    Ok(())
}

/// The word at a place of the image.
fn word_in(image: &[u8], at: usize) -> u32
    ensures { result ≡ spec.site_word image.now at }
{
    word_at(image, at).unwrap_or(0)
}

/// Whether it is a jump that cannot reach its target.
fn is_far(site: &Site, word: u32) -> bool
    ensures { result ≡ spec.is_far site.now word }
{
    let target = jump_target(site, word);
    site.r_type == R_MIPS_26 && (target % 4 != 0 || target >= 0x1000_0000)
}

/// The word that a site is to hold, if it holds a word, and the lower half that goes with it is in another.
fn new_word(site: &Site, word: u32, low_word: u32) -> u32
    ensures { result ≡ spec.new_word site.now word low_word }
{
    match site.r_type {
        R_MIPS_32 => word.wrapping_add(site.value),
        R_MIPS_26 => with_target(word, jump_target(site, word)),
        R_MIPS_HI16 => with_half(word, high_half(site.value, word, low_word)),
        R_MIPS_LO16 => with_half(word, word.wrapping_add(site.value) % 0x1_0000),
        _ => word,
    }
}

/// The target of a jump: its field counts words, and is signed unless the symbol is local.
fn jump_target(site: &Site, word: u32) -> u32
    ensures { result ≡ spec.linked_jump site.now.is_local site.now.value word }
{
    let addend = word % 0x0400_0000 * 4;
    if site.is_local || addend < 0x0800_0000 {
        site.value.wrapping_add(addend)
    } else {
        site.value.wrapping_add(addend + 0xF000_0000)
    }
}

/// The jump with another target.
fn with_target(word: u32, target: u32) -> u32
    ensures { result ≡ spec.with_target word target }
{
    word - word % 0x0400_0000 + target / 4 % 0x0400_0000
}

/// The word with another lower half.
fn with_half(word: u32, half: u32) -> u32
    requires { half < 2 ^ 16 }
    ensures { result ≡ spec.with_lower_half word half }
{
    word - word % 0x1_0000 + half
}

/// The upper half of an address that a word and that of its lower half hold, with the value added, so that the lower half, added
/// as a signed number, gives the address.
fn high_half(value: u32, word: u32, low_word: u32) -> u32
    ensures half { result ≡ spec.high_half value word low_word }
    ensures small { result < 2 ^ 16 }
{
    let high = word % 0x1_0000 * 0x1_0000;
    let low = signed_half(low_word % 0x1_0000);
    let address = high.wrapping_add(low).wrapping_add(value);
    address.wrapping_add(0x8000) / 0x1_0000
}

/// A half-word as a signed number, modulo 2^32.
fn signed_half(half: u32) -> u32
    requires { half < 2 ^ 16 }
    ensures { result ≡ spec.signed_half half }
{
    if half < 0x8000 {
        half
    } else {
        half + 0xFFFF_0000
    }
}
