ghost use Rattle.std.specs.Prelude.{◌≡◌, ◌&&◌, not, position, string_bytes};
ghost use Rattle.command_forms.specs.Forms.{after_end, before_end, has_end, takes_arguments};
ghost use Rattle.command_forms.specs.Word.{is_end_of_words, texts};

use crate::command_name::CommandName;
use crate::word::is_end;

/// Whether there is a `--` that the command does not take, in the words after its name.
pub fn refuses_end(name: CommandName, words: &[String]) -> bool
    ensures { result ≡ (has_end (texts words.now) && not (takes_arguments name)) }
{
    has_end(words) && !name.takes_arguments()
}

/// Whether there is a `--`.
fn has_end(words: &[String]) -> bool
    ensures { result ≡ has_end (texts words.now) }
{
    end_of(words).is_some()
}

/// The words before the first `--`, and those after it; all words and none where there is no `--`.
pub fn cut(words: &[String]) -> (&[String], &[String])
    ensures before { texts result.0.now ≡ before_end (texts words.now) }
    ensures after { texts result.1.now ≡ after_end (texts words.now) }
{
    match end_of(words) {
        Some(at) => {
            let (before, _) = words.split_at(at);
            let (_, after) = words.split_at(at + 1);
            (before, after)
        }
        None => (words, &[]),
    }
}

/// The place of the first `--`.
fn end_of(words: &[String]) -> Option<usize>
    ensures { result ≡ position (λ w. is_end_of_words (string_bytes w)) words.now }
{
    words.iter().position(|word| is_end(word.as_str()))
}
