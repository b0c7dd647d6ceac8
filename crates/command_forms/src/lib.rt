//! Which words of the command line are lawful, as forms.
//!
//! The form of a command names its plain words and its options. The words before `--` are read by it with `clap`, as one simple
//! command for each form.
#![tactic(auto)]

mod command_name;
mod end;
mod matching;
mod options;
mod place;
mod usage;
mod word;
mod words_error;

pub use command_name::CommandName;
pub use end::{cut, refuses_end};
pub use matching::match_words;
pub use options::option_words;
pub use place::{value_place, word_place};
pub use usage::Usage;
pub use word::{is_plain, waits_for_value};
pub use words_error::WordsError;
