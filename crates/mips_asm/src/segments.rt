//! The bytes of the two segments.
ghost use Rattle.std.specs.Prelude.{◌≡◌, ◌++◌, ◌/◌, [], OnOk, cond, replicate};
ghost use Rattle.elf_definition.specs.FileFields.{words};
ghost use Rattle.mips_asm.specs.Fillings.{filling_words};

use crate::filling::Filling;
use std::alloc::{AllocError, Global};

/// The bytes of the two segments.
#[derive(Drop)]
pub struct Segments {
    /// Those of the text.
    pub text: Vec<u8>,
    /// Those of the data.
    pub data_bytes: Vec<u8>,
}

impl Segments {
    /// No bytes.
    pub fn new(alloc: Global) -> Segments
        ensures text { result.text.items ≡ [] }
        ensures data_bytes { result.data_bytes.items ≡ [] }
    {
        Segments {
            text: Vec::new(alloc),
            data_bytes: Vec::new(alloc),
        }
    }

    /// Appends what a line puts into the segment that it fills.
    ///
    /// # Errors
    /// Where there is no memory for it.
    pub fn append(&mut self, in_data: bool, filling: Filling) -> Result<(), AllocError>
        ensures text { OnOk result (self.new.text.items ≡ self.old.text.items
            ++ words (cond in_data [] (filling_words filling))) }
        ensures data_bytes { OnOk result (self.new.data_bytes.items ≡ self.old.data_bytes.items
            ++ words (cond in_data (filling_words filling) [])) }
    {
        if in_data {
            append_filling(&mut self.data_bytes, filling)
        } else {
            append_filling(&mut self.text, filling)
        }
    }
}

fn append_filling(segment: &mut Vec<u8>, filling: Filling) -> Result<(), AllocError>
    ensures { OnOk result (segment.new.items ≡ segment.old.items ++ words (filling_words filling)) }
{
    match filling {
        Filling::Nothing => Ok(()),
        Filling::Word(word) => segment.extend_from_slice(&word.to_be_bytes()),
        Filling::Zeros(bytes) => append_zeros(segment, bytes / 4),
    }
}

fn append_zeros(segment: &mut Vec<u8>, count: u64) -> Result<(), AllocError>
    ensures { OnOk result (segment.new.items ≡ segment.old.items ++ words (replicate count 0)) }
{
    'zeros: for _ in 0..count {
        segment.extend_from_slice(&[0; 4])?;
    }
    Ok(())
}
