//! The commands on guest programs and on classes: `interp`, `list`, `asm`, `verify` and `run`; and how a command comes
//! to the image of a program.
#![tactic(auto)]

mod accepting;
mod assembly;
mod guest;
mod imaging;
mod interpreting;
mod listing;
mod running;
mod verifying;

pub use accepting::{accept, accept_loaded};
pub use assembly::asm;
pub use guest::Guest;
pub use imaging::{DEFAULT_PAGES, image_of_file, load_image};
pub use interpreting::interp;
pub use listing::list;
pub use running::run;
pub use verifying::{verify, write_counts};
