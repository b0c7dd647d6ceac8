//! What a `main` of the program does, over a runtime and its three streams: makes the real things, calls the program
//! over them, and gives the status of its answer.
#![tactic(auto)]

mod answers_itself;

use answers_itself::help;
use nested_cli::{nested, status};
use nv_outside::{FileShelf, StdSink, StdSource};
use std::env::{self, Env};
use std::io::{ErrorKind, Read, Write};
use std::path::PathBuf;
use std::process::ExitCode;
use std::rt::Files;
use std::time::{Clock, Duration, SystemTime, UNIX_EPOCH};

/// Runs the program with the words of the command line, in the folder where it was started.
pub fn perform<R, I, O, E>(rt: R, input: I, out: O, err: E) -> ExitCode
where
    R: Env + Clock + Files + AllocGlobal + Drop,
    I: Read + Drop,
    O: Write + Drop,
    E: Write + Drop,
{
    let alloc = rt.alloc();
    let mut words = Vec::new(alloc);
    match env::args(&rt) {
        Ok(all) => {
            for word in all.skip(1) {
                if words.push(word).is_err() {
                    return ExitCode::from(status::NO_MEMORY);
                }
            }
        }
        Err(error) if error.kind() == ErrorKind::OutOfMemory => return ExitCode::from(
            status::NO_MEMORY,
        ),
        Err(_) => return ExitCode::from(status::USAGE),
    }
    let Ok(folder) = PathBuf::from_str(alloc, "") else {
        return ExitCode::from(status::NO_MEMORY);
    };
    let moment = moment(&rt);
    let mut input = StdSource::new(input);
    let mut out = StdSink::new(out);
    if let Some(status) = help(words.as_slice(), &mut out) {
        return ExitCode::from(status);
    }
    let mut err = StdSink::new(err);
    let mut shelf = FileShelf::new(alloc, rt, folder);
    let done = nested(
        alloc,
        words.as_slice(),
        moment,
        &mut shelf,
        &mut input,
        &mut out,
        &mut err,
    );
    ExitCode::from(done.status())
}

/// The time in seconds since 1970, or 0 where the clock does not tell.
fn moment(rt: &impl Clock) -> u64 {
    match SystemTime::now(rt) {
        Ok(now) => match now.duration_since(UNIX_EPOCH) {
            Ok(since) => since.as_secs(),
            Err(_) => 0,
        },
        Err(_) => 0,
    }
}
