//! Two values, either of which may be at fault.
ghost use Rattle.std.specs.Prelude.{◌≡◌};
ghost use Rattle.mips_asm.specs.Shapes.{both_of};

/// Both values, or the lower kind of their faults.
pub fn both<A: Copy, B: Copy>(first: Result<A, u32>, second: Result<B, u32>) -> Result<(A, B), u32>
    ensures { result ≡ both_of first second }
{
    match (first, second) {
        (Ok(x), Ok(y)) => Ok((x, y)),
        (Ok(_), Err(kind)) => Err(kind),
        (Err(kind), Ok(_)) => Err(kind),
        (Err(kind), Err(other)) => Err(kind.min(other)),
    }
}
