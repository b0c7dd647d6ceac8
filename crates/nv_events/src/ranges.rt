//! Ranges of addresses. They are tested page by page, so a test takes little time even if a range is long.

ghost use Rattle.std.specs.Prelude.{◌≡◌, is_some};
ghost use Rattle.run_definition.specs.Memory.{can_write, bytes_from};

use crate::view::View;

/// The addresses of a page.
const PAGE: u32 = 4096;

/// Whether each of the addresses from `place` on may be written; none is past FFFFFFFF.
pub fn has_room<V: View>(view: &V, place: u32, size: u32) -> bool
    ensures { result ≡ can_write (V.memory (V.content view.now)) place size }
{
    view.laws();
    if size == 0 {
        return true;
    }
    let Some(last) = place.checked_add(size - 1) else {
        return false;
    };
    for page in place / PAGE..last / PAGE {
        if !view.writable(page * PAGE + (PAGE - 1)) {
            return false;
        }
    }
    view.writable(last)
}

/// Whether each of the addresses from `at` on can be read; none is past FFFFFFFF.
pub fn is_readable<V: View>(view: &V, at: u32, size: u32) -> bool
    ensures { result ≡ is_some (bytes_from (V.memory (V.content view.now)) at size) }
{
    view.laws();
    if size == 0 {
        return true;
    }
    let Some(last) = at.checked_add(size - 1) else {
        return false;
    };
    for page in at / PAGE..last / PAGE {
        if view.byte(page * PAGE + (PAGE - 1)).is_none() {
            return false;
        }
    }
    view.byte(last).is_some()
}
