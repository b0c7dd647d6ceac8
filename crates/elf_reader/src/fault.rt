//! One check of a file: its fault, if it fails.
ghost use Rattle.std.specs.Prelude.{◌≡◌, ◌^◌, ◌<◌, IfSome};
ghost use Rattle.elf_definition.specs.Check.{fails, fails_at};

use elf_definition::ElfFault;

/// The fault of a check that names no header, if it fails.
pub fn fault_when(kind: u32, failed: bool) -> Option<ElfFault>
    ensures { result ≡ fails kind failed }
{
    failed.then_some(ElfFault { kind, i: 0, j: 0 })
}

/// The fault of a check that names the first header or page at which it fails, if there is one.
pub fn fault_at(kind: u32, place: Option<usize>) -> Option<ElfFault>
    requires { IfSome place (λ i. i < 2 ^ 32) }
    ensures { result ≡ fails_at kind place }
{
    match place {
        Some(i) => Some(ElfFault {
            kind,
            i: i as u32,
            j: 0,
        }),
        None => None,
    }
}
