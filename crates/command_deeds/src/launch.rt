use command_words::Session;
use nv_values::ClassName;

/// How a machine is started on the system.
#[derive(Debug, Drop)]
pub struct Launch<'a> {
    /// The name that is its first argument.
    pub name: &'a ClassName,
    /// Its steps, disk, files and other arguments.
    pub session: &'a Session,
    /// The time in seconds since 1970.
    pub moment: u64,
}

impl<'a> Launch<'a> {
    ghost use Rattle.std.specs.Prelude.{◌≡◌};

    /// The start of a machine under this name, with these options, at this moment.
    pub fn new(name: &'a ClassName, session: &'a Session, moment: u64) -> Self
        ensures name { result.name.now ≡ name.now }
        ensures session { result.session.now ≡ session.now }
        ensures moment { result.moment ≡ moment }
    {
        Launch {
            name,
            session,
            moment,
        }
    }
}
