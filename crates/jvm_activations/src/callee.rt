ghost use Rattle.std.specs.Prelude.{◌≡◌};

/// A method, as a call needs to know it.
#[derive(Clone, Copy)]
pub struct Callee {
    pub method: u32,
    /// The index of its first instruction.
    pub start: u32,
    /// How many parameters it has.
    pub parameters: u16,
    /// How many local variables it has, of which the parameters are the first.
    pub locals: u16,
}

impl Callee {
    // The same with these numbers of parameters and local variables: where they are constants, so is what is moved by a call.
    #[inline(always)]
    pub(crate) fn sized(self, parameters: u16, locals: u16) -> Callee
        ensures { result
            ≡ record {
              method = self.method;
              start = self.start;
              parameters = parameters;
              locals = locals;
            } }
    {
        Callee {
            method: self.method,
            start: self.start,
            parameters,
            locals,
        }
    }
}
