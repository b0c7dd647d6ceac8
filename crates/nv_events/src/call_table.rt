//! Which words of a call point to texts and to the room for its answer.

ghost use Rattle.std.specs.Prelude.{◌≡◌, Some, None};
ghost use Rattle.run_definition.specs.Question.{places_asked, texts_and_room};

use run_definition::{Call, Places, TextPlace};

fn of_room(place: u32, size: u32) -> Places
    ensures { result ≡ texts_and_room TextPlace.Absent TextPlace.Absent (Some (place, size)) }
{
    Places {
        text: TextPlace::Absent,
        second: TextPlace::Absent,
        room: Some((place, size)),
    }
}

fn of_text(text: TextPlace) -> Places
    ensures { result ≡ texts_and_room text TextPlace.Absent None }
{
    Places {
        text,
        second: TextPlace::Absent,
        room: None,
    }
}

/// Where the texts of a call and the room for its answer are, by its number. It takes no memory.
pub fn places(call: &Call) -> Places
    ensures { result ≡ places_asked call.now }
{
    match call.number {
        0 => of_room(call.a0, 4096),
        2 | 9 => of_text(TextPlace::Zero(call.a0)),
        4 => of_room(call.a1, call.a2),
        5 => of_text(TextPlace::Counted(call.a1, call.a2)),
        8 => of_room(call.a1, 16),
        14 => Places {
            text: TextPlace::Zero(call.a0),
            second: TextPlace::Zero(call.a1),
            room: None,
        },
        _ => of_text(TextPlace::Absent),
    }
}
