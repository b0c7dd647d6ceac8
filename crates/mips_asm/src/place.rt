//! Where lines are.
ghost use Rattle.std.specs.Prelude.{◌≡◌, ◌^◌, ◌<◌};
ghost use Rattle.asm_lines.specs.Statements.{line_of_statement};
ghost use Rattle.mips_asm.specs.Passes.{IsLow};
ghost use Rattle.mips_asm.specs.Program as program;

use crate::directives::size_of_statement;
use asm_lines::Statement;

/// The address of the text.
pub const TEXT: u32 = 0x0040_0000;

/// The address of the data.
pub const DATA: u32 = 0x1000_0000;

/// The most bytes of text: 1,048,576 words.
const MAX_TEXT: u64 = 4_194_304;

/// The most bytes of data.
const MAX_DATA: u64 = 16_777_216;

/// The segment that lines fill, and the bytes in both segments so far.
#[derive(Clone, Copy)]
pub struct Place {
    /// Whether they fill the data.
    pub in_data: bool,
    /// The bytes in the text.
    pub text: u64,
    /// The bytes in the data.
    pub data_bytes: u64,
}

impl Place {
    /// Before the first line.
    pub fn start() -> Place
        ensures { result ≡ program.start_place }
    {
        Place {
            in_data: false,
            text: 0,
            data_bytes: 0,
        }
    }

    /// The address of the next byte.
    pub fn address(self) -> u64
        requires { IsLow (2 ^ 50) self }
        ensures value { result ≡ program.address self }
        ensures small { result < 4611686018427387904 }
    {
        if self.in_data {
            u64::from(DATA) + self.data_bytes
        } else {
            u64::from(TEXT) + self.text
        }
    }

    /// The place after so many bytes.
    pub fn filled(self, bytes: u64) -> Place
        requires few { bytes < 2097152 }
        requires low { IsLow (2 ^ 50) self }
        ensures { result ≡ program.filled bytes self }
    {
        if self.in_data {
            Place {
                data_bytes: self.data_bytes + bytes,
                ..self
            }
        } else {
            Place {
                text: self.text + bytes,
                ..self
            }
        }
    }

    /// Whether the segment that lines fill is not too long.
    pub fn is_within(self) -> bool
        ensures { result ≡ program.is_within_limits self }
    {
        if self.in_data {
            self.data_bytes <= MAX_DATA
        } else {
            self.text <= MAX_TEXT
        }
    }

    /// The place after a line.
    pub fn behind(self, statement: Statement<'_>) -> Place
        requires { IsLow (2 ^ 50) self }
        ensures { result ≡ program.place_after (line_of_statement statement.entry) self }
    {
        match statement {
            Statement::TextSegment(rest) => self.entered(false, rest),
            Statement::DataSegment(rest) => self.entered(true, rest),
            Statement::Word(_) | Statement::Instruction(_, _) => self.filled(4),
            Statement::Space(_) => self.filled(size_of_statement(statement)),
            _ => self,
        }
    }

    /// The place where a directive of a segment is.
    fn entered(self, in_data: bool, rest: &[u8]) -> Place
        ensures { result ≡ program.entered_segment in_data rest.now self }
    {
        if rest.is_empty() {
            Place { in_data, ..self }
        } else {
            self
        }
    }
}
