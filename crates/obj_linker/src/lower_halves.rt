use std::alloc::{AllocError, Global};
use std::collections::BTreeMap;
use std::marker::Model;

/// The offsets of the next `R_MIPS_LO16`, by section and symbol, each numbered through.
#[derive(Drop)]
pub struct LowerHalves {
    offsets: BTreeMap<(usize, usize), u32>,
}

impl Model for LowerHalves {
    ghost use Rattle.obj_linker.specs.Pairs.{LowList};

    ghost Value = { LowList };

    ghost view = { λ h. h.offsets.entries };
}

impl LowerHalves {
    ghost use Rattle.std.specs.Prelude.{◌≡◌, ◌==◌, ◌&&◌, ℕ, [], OnOk, Some, if◌then◌else◌};
    ghost use Rattle.obj_linker.specs.Pairs.{low_in};

    /// No offsets.
    pub fn new(alloc: Global) -> LowerHalves
        ensures { result ≡ [] }
    {
        LowerHalves {
            offsets: BTreeMap::new(alloc),
        }
    }

    /// The offset for a section and a symbol.
    pub fn get(&self, section: usize, symbol: usize) -> Option<u32>
        ensures { result ≡ low_in self.now section symbol }
    {
        self.offsets.get(&(section, symbol)).copied()
    }

    /// Sets the offset for a section and a symbol.
    ///
    /// # Errors
    /// Where there is no memory for one more.
    pub fn set(&mut self, section: usize, symbol: usize, offset: u32) -> Result<(), AllocError>
        ensures { OnOk result ((a b : ℕ) → low_in self.new a b
            ≡ (if section == a && symbol == b then Some offset else low_in self.old a b)) }
    {
        self.offsets.insert((section, symbol), offset)?;
        Ok(())
    }
}
