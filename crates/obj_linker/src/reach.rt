use crate::name_place::place_of;
use obj_reader::Symbol;

/// The first and the last place in an object at which a name begins.
#[derive(Clone, Copy)]
pub struct Reach {
    pub first: usize,
    pub last: usize,
}

/// Where the names begin that a symbol has and those of its object that follow it.
pub fn reach_of(s: &Symbol, later: &[Symbol]) -> Reach {
    let place = place_of(s);
    let mut reach = Reach {
        first: place,
        last: place,
    };
    for other in later {
        if other.object != s.object {
            return reach;
        }
        reach = reach_with(reach, other);
    }
    reach
}

/// The same with one more symbol, if it is not local.
fn reach_with(reach: Reach, s: &Symbol) -> Reach {
    if s.is_local() {
        return reach;
    }
    let place = place_of(s);
    Reach {
        first: reach.first.min(place),
        last: reach.last.max(place),
    }
}
