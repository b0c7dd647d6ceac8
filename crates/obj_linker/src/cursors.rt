ghost use Rattle.std.specs.Prelude.{◌≡◌, ◌<◌, ◌^◌};
ghost use Rattle.obj_linker.specs.Layout.{next_end};

use crate::group::Group;
use crate::layout::section_start;
use obj_reader::Section;

/// Where the sections of each group end so far.
#[derive(Clone, Copy)]
pub struct Cursors {
    /// The code.
    pub code: u32,
    /// The constants.
    pub constants: u32,
    /// The data.
    pub data_at: u32,
    /// The zeros.
    pub zeros: u32,
}

impl Cursors {
    ghost use Rattle.std.specs.Prelude.{◌≡◌};
    ghost use Rattle.obj_linker.specs.Cursor.{HasRoom, moved, place_at};

    /// The place of the next section, 0 where it gets none.
    pub fn place(&mut self, s: &Section) -> u32
        requires { HasRoom self.old s.now }
        ensures place { result ≡ place_at self.old s.now }
        ensures after { self.new ≡ moved self.old s.now }
    {
        let place = self.start_of(s);
        self.code = next_end(Group::Code, self.code, s);
        self.constants = next_end(Group::Constants, self.constants, s);
        self.data_at = next_end(Group::Data, self.data_at, s);
        self.zeros = next_end(Group::Zeros, self.zeros, s);
        place
    }

    /// Where the next section begins, 0 where it gets no place.
    fn start_of(&self, s: &Section) -> u32
        requires { HasRoom self.now s.now }
        ensures { result ≡ place_at self.now s.now }
    {
        if Group::Code.has(s) {
            section_start(self.code, s) as u32
        } else if Group::Constants.has(s) {
            section_start(self.constants, s) as u32
        } else if Group::Data.has(s) {
            section_start(self.data_at, s) as u32
        } else if Group::Zeros.has(s) {
            section_start(self.zeros, s) as u32
        } else {
            0
        }
    }
}

/// Where a group ends with one section more.
fn next_end(group: Group, at: u32, s: &Section) -> u32
    requires { next_end group at s.now < 2 ^ 31 }
    ensures { result ≡ next_end group at s.now }
{
    if group.has(s) {
        (section_start(at, s) + u64::from(s.sh_size)) as u32
    } else {
        at
    }
}
