/// What a command works on: a shelf of files, a source of input, and sinks of output and error output.
#[derive(Drop)]
pub struct Outside<'a, H, S, O, E> {
    /// Whole files, by their names.
    pub shelf: &'a mut H,
    /// What a guest reads.
    pub input: &'a mut S,
    /// What a command and a guest write.
    pub out: &'a mut O,
    /// What a guest writes as errors, and the answer's line.
    pub err: &'a mut E,
}

impl<'a, H, S, O, E> Outside<'a, H, S, O, E> {
    ghost use Rattle.std.specs.Prelude.{◌≡◌};

    /// The outside of these parts.
    pub fn new(shelf: &'a mut H, input: &'a mut S, out: &'a mut O, err: &'a mut E) -> Self
        ensures shelf { (result.shelf.ghost_name ≡ shelf.entry.ghost_name)
            × (result.shelf.now ≡ shelf.entry.now) }
        ensures input { (result.input.ghost_name ≡ input.entry.ghost_name)
            × (result.input.now ≡ input.entry.now) }
        ensures out { (result.out.ghost_name ≡ out.entry.ghost_name)
            × (result.out.now ≡ out.entry.now) }
        ensures err { (result.err.ghost_name ≡ err.entry.ghost_name)
            × (result.err.now ≡ err.entry.now) }
    {
        Outside {
            shelf,
            input,
            out,
            err,
        }
    }
}
