//! What `.word` and `.space` stand for. An `Err` is the kind of their fault.
ghost use Rattle.std.specs.Prelude.{◌≡◌, ◌<◌, IfOk};
ghost use Rattle.mips_asm.specs.Program as program;
ghost use Rattle.asm_lines.specs.Statements.{line_of_statement};

use asm_lines::{OUT_OF_RANGE, Statement, number_between};

/// The word of `.word`, from its operand.
pub fn word_value(rest: &[u8]) -> Result<u32, u32>
    ensures { result ≡ program.word_value rest.now }
{
    match number_between(0x8000_0000, 0xFFFF_FFFF, 32, rest) {
        Ok(word) => Ok(word as u32),
        Err(kind) => Err(kind),
    }
}

/// How many bytes `.space` fills, from its operand: a multiple of 4.
pub fn space_value(rest: &[u8]) -> Result<u64, u32>
    ensures value { result ≡ program.space_value rest.now }
    ensures few { IfOk result (λ n. n < 2097152) }
{
    whole_words(number_between(0, 1_048_576, 21, rest))
}

fn whole_words(bytes: Result<u64, u32>) -> Result<u64, u32>
    ensures value { result ≡ program.whole_words bytes }
    ensures same { IfOk result (λ n. bytes ≡ Ok n) }
{
    match bytes {
        Ok(n) if n % 4 != 0 => Err(OUT_OF_RANGE),
        other => other,
    }
}

/// How many bytes a line fills, also one with a fault.
pub fn size_of_statement(statement: Statement<'_>) -> u64
    ensures value { result ≡ program.size (line_of_statement statement.entry) }
    ensures few { result < 2097152 }
{
    match statement {
        Statement::Word(_) | Statement::Instruction(_, _) => 4,
        Statement::Space(rest) => space_value(rest).unwrap_or(0),
        _ => 0,
    }
}
