//! What the program says of itself.
use nested_cli::status;
use nv_outside::{Sink, write_all};

const HELP: &str = "nested: runs MIPS programs without native code

    nested interp IN [options] [-- ARGS]      runs the program in the file IN
    nested translate IN [options]             translates it, and stores its classes
    nested go IN [options] [-- ARGS]          translates it, stores its classes, and runs them
    nested list IN                            prints the code of a program, a line a word
    nested asm IN OUT                         assembles the text in IN into the program OUT
    nested link OUT IN.. [options]            links the objects IN (1 to 256) to the program OUT
    nested verify NAME                        loads, links and verifies the class NAME and those that it names
    nested run NAME [options] [-- ARGS]       verifies them, and runs them
    nested pipe A B .. [options]              runs 2 to 8 classes, each with the output of the one before as its input
    nested frames NAME                        stores them in version 51 with tables of frames (StackMapTable)
    nested check NAME                         loads classes of version 51, links them, and checks them by their tables
    nested make N [options]                   makes a program of N blocks (1 to 65536), and runs it and its classes
    nested --help, nested --version           print this text, and the version

    --name NAME         of go, translate, interp: the main class and the first argument (Main)
    --heap N            of go, translate, interp: pages of heap, 0 to 32768 (256)
    --stack N           of go, translate, interp: pages of stack, 1 to 32768 (64)
    --method-bytes N    of go, translate, make: the most bytes of a method, 4096 to 65535 (65535)
    --meter N           of go, translate: classes that stop after N instructions of the program, 0 to 2147483647 (none)
    --steps N           of go, interp, run, pipe: the most instructions, 0 to 2^40, of run and pipe 2^50 (the most)
    --words N           of run, pipe: words for arrays, 1 to 68288580 (4194304)
    --disk N            of go, interp, run, pipe: blocks of 4096 bytes for files, 0 to 65536 (1024)
    --pipe N            of pipe: the bytes that make a pipe full, 1 to 65536 (4096)
    --entry SYMBOL      of link: where the program begins (__start)
    --with NAMES        of go, interp, run: files that the program finds, a list with commas (none)
    --keep NAMES        of go, interp, run: files that are stored when it ends, a list with commas (none)

In brackets stands what holds where an option is left out. README.md tells more.
";

const VERSION: &str = "nested 0.9.0
";

/// Answers `--help` and `--version`, where one of these is the only word, with the status of the process.
pub fn help<O: Sink>(words: &[String], out: &mut O) -> Option<u8> {
    let [word] = words else {
        return None;
    };
    let text = match word.as_str() {
        "--help" => HELP,
        "--version" => VERSION,
        _ => return None,
    };
    match write_all(out, text.as_bytes()) {
        Ok(()) => Some(status::GOOD),
        Err(_) => Some(status::WRITE_FAULT),
    }
}
