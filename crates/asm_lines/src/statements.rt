//! What each line is.
ghost use Rattle.std.specs.Prelude.{◌≡◌, ◌==◌, ◌&&◌};
ghost use Rattle.asm_lines.specs.Lexical as lexical;
ghost use Rattle.asm_lines.specs.Statements.{line_of_statement};
ghost use Rattle.asm_lines.specs.Lines as lines;

use crate::lexical::{after_word, bare_line, first_word, is_name};
use crate::mnemonic::Mnemonic;
use crate::mnemonics::mnemonic_of;
use crate::statement::Statement;

/// What a line is.
pub fn statement_of(line: &[u8]) -> Statement<'_>
    ensures { line_of_statement result ≡ lines.line_of_text line.now }
{
    of_bare_line(bare_line(line))
}

#[tactic(auto, using(crate::proofs::LineLemmas::label_end, crate::proofs::LineLemmas::no_label_end))]
fn of_bare_line(line: &[u8]) -> Statement<'_>
    ensures { line_of_statement result ≡ lines.bare_line_is line.now }
{
    match line.split_last() {
        None => Statement::Nothing,
        Some((last, name)) => {
            if is_label(*last, name) {
                Statement::Label(name)
            } else {
                of_word(first_word(line), after_word(line))
            }
        }
    }
}

fn is_label(last: u8, name: &[u8]) -> bool
    ensures { result ≡ (last == 58 && lexical.is_name name.now) }
{
    last == b':' && is_name(name)
}

fn of_word<'a>(word: &'a [u8], rest: &'a [u8]) -> Statement<'a>
    ensures { line_of_statement result ≡ lines.by_word word.now rest.now }
{
    if word == b".text".as_slice() {
        Statement::TextSegment(rest)
    } else if word == b".data".as_slice() {
        Statement::DataSegment(rest)
    } else if word == b".word".as_slice() {
        Statement::Word(rest)
    } else if word == b".space".as_slice() {
        Statement::Space(rest)
    } else {
        of_mnemonic(mnemonic_of(word), rest)
    }
}

fn of_mnemonic(mnemonic: Option<Mnemonic>, rest: &[u8]) -> Statement<'_>
    ensures { line_of_statement result ≡ lines.by_mnemonic mnemonic rest.now }
{
    match mnemonic {
        None => Statement::NoForm,
        Some(mnemonic) => Statement::Instruction(mnemonic, rest),
    }
}
