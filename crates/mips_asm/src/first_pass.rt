//! The first pass over a text: its labels.
ghost use Rattle.std.specs.Prelude.{◌≡◌, ◌≤◌, ℕ, List, [], IfOk, OnOk, Some, None, cond, length, option_copied};
ghost use Rattle.asm_lines.specs.Operands.{label_address, first_of};
ghost use Rattle.asm_lines.specs.Statements.{line_of_statement};
ghost use Rattle.mips_asm.specs.Passes.{first_again, is_again};
ghost use Rattle.mips_asm.specs.Program as program;

use crate::found::Found;
use crate::place::Place;
use asm_lines::{Labels, Statement, first_line, statement_of};
use std::alloc::{AllocError, Global};

/// The labels of a text, and the first line with a label that an earlier line has.
///
/// # Errors
/// Where there is no memory for the labels.
pub fn find_labels<'a>(alloc: Global, text: &'a [u8]) -> Result<Found<'a>, AllocError>
    requires { length text.now ≤ 67108864 }
    ensures labels { IfOk result (λ found. (name : List ℕ)
        → label_address found.labels name
        ≡ label_address (program.labels_from program.start_place (program.parsed_lines text.now)) name) }
    ensures again { IfOk result (λ found. found.again
        ≡ first_again [] program.start_place 1 (program.parsed_lines text.now)) }
{
    let mut labels = Labels::new(alloc);
    let mut again = None;
    let mut place = Place::start();
    let mut line = 1;
    let mut left = Some(text);
    'lines: while let Some(rest) = left {
        let (front, behind) = first_line(rest);
        let statement = statement_of(front);
        let is_again = note_label(&mut labels, statement, place.address())?;
        again = first_marked(again, is_again, line);
        place = place.behind(statement);
        line += 1;
        left = behind;
    }
    Ok(Found { labels, again })
}

/// Adds a line's label, if it has one that is new, and says whether it has one that is not.
fn note_label<'a>(
    labels: &mut Labels<'a>,
    statement: Statement<'a>,
    address: u64,
) -> Result<bool, AllocError>
    ensures again { IfOk result (λ again. again
        ≡ is_again labels.old (line_of_statement statement.entry)) }
    ensures addresses { OnOk result ((name : List ℕ)
        → label_address labels.new name
        ≡ first_of (label_address labels.old name)
        (label_address (program.with_label (line_of_statement statement.entry) address []) name)) }
{
    match statement {
        Statement::Label(name) => {
            let is_new = labels.add(name, address)?;
            Ok(!is_new)
        }
        _ => Ok(false),
    }
}

/// The line that is marked already, or this line where it is to be.
fn first_marked(marked: Option<u32>, is_marked: bool, line: u32) -> Option<u32>
    ensures { result ≡ first_of marked (cond is_marked (Some line) None) }
{
    match marked {
        Some(first) => Some(first),
        None if is_marked => Some(line),
        None => None,
    }
}
