ghost use Rattle.std.specs.Prelude.{◌≡◌, IfOk};

use jvm_definition::Kind;
use std::alloc::{AllocError, Global};
use std::marker::Model;
use std::rc::Rc;

/// Types in order, which several frames may have in common. Contracts see the list of them.
#[derive(Drop)]
pub struct SharedKinds {
    kinds: Rc<Vec<Kind>>,
}

impl Model for SharedKinds {
    ghost use Rattle.std.specs.Prelude.{List};
    ghost use Rattle.jvm_definition.specs.declared.kind.Kind.{Kind};

    ghost Value = { List Kind };

    ghost view = { λ s. s.kinds.value.items };
}

impl SharedKinds {
    pub fn new(alloc: Global, kinds: Vec<Kind>) -> Result<SharedKinds, AllocError>
        ensures { IfOk result (λ s. s ≡ kinds.items) }
    {
        let kinds = Rc::new(alloc, kinds)?;
        Ok(SharedKinds { kinds })
    }

    /// Types that lie elsewhere.
    pub fn from_slice(alloc: Global, kinds: &[Kind]) -> Result<SharedKinds, AllocError>
        ensures { IfOk result (λ s. s ≡ kinds.now) }
    {
        SharedKinds::new(alloc, Vec::from_slice(alloc, kinds)?)
    }

    /// The same types for one more frame. It takes no memory.
    #[inline(always)]
    pub fn shared(&self) -> Result<SharedKinds, AllocError>
        ensures { IfOk result (λ s. s ≡ self.now) }
    {
        let kinds = self.kinds.clone()?;
        Ok(SharedKinds { kinds })
    }

    /// The types, to be read.
    #[inline(always)]
    pub fn as_slice(&self) -> &[Kind]
        ensures { result.now ≡ self.now }
    {
        self.kinds.as_slice()
    }
}
