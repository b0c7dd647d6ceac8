ghost use Rattle.std.specs.Prelude.{◌≡◌, ℕ, ◌<◌, ◌==◌, nat_lt, ◌&&◌, if◌then◌else◌, true};
ghost use Rattle.mips_machine.specs.Registers.{registers_of};

use std::marker::Model;

/// The 32 general registers, of which register 0 holds 0.
#[derive(Drop)]
pub struct Registers {
    values: [u32; 32],
}

impl Model for Registers {
    ghost use Rattle.std.specs.Prelude.{◌≡◌, ℕ, List, length, slice_index};

    ghost Value = { List ℕ };

    ghost view = { λ r. r.values };

    ghost invariant = { λ r. slice_index r.values 0 ≡ 0 };
}

impl Registers {
    /// The registers at the start of a program: the stack pointer holds 7FFFEFF0 (hexadecimal), the others 0.
    pub fn new() -> Registers
        ensures { registers_of result ≡ (λ r. if r == 29 then 0x7fff_eff0 else 0) }
    {
        let mut values = [0; 32];
        values[29] = 0x7fff_eff0;
        Registers { values }
    }

    /// What a register holds.
    #[inline]
    pub fn get(&self, r: u8) -> u32
        requires { r < 32 }
        ensures { result ≡ (if r == 0 then 0 else registers_of self.now r) }
    {
        self.values[r as usize]
    }

    /// Writes a register, of which it may be known that it is another than register 0. A write of register 0 is lost.
    #[inline]
    pub fn set<const OTHER: bool>(&mut self, r: u8, w: u32)
        requires number { r < 32 }
        requires other { OTHER ≡ true → 0 < r }
        ensures { registers_of self.new ≡ (λ k. if nat_lt 0 r && k == r then w
            else registers_of self.old k) }
    {
        self.values[r as usize] = w;
        if !OTHER {
            self.values[0] = 0;
        }
    }
}
