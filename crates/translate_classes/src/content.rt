use elf_image_parts::PageRun;
use emit_loading::Beginning;
use nv_values::MeterTurns;
use trampoline::Start;

/// What the main class is made of.
#[derive(Clone, Copy)]
pub struct MainClass<'a> {
    /// With what the program begins.
    pub beginning: Beginning,
    /// How many instructions of the guest the classes may make before they end by themselves; without it there is no meter.
    pub meter: Option<MeterTurns>,
    /// The pages that can be read.
    pub runs: &'a [PageRun],
    /// Where the classes of code begin, by the numbers of their methods `run()V`, and after each range of code the number of `missing()V`.
    pub starts: &'a [Start],
    /// The number of the method `run()V` of each class of code.
    pub code: &'a [u32],
    /// The number of the method `fill()V` of each class of data.
    pub data: &'a [u32],
}
