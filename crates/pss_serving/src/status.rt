// How a call of the service ended.
ghost use Rattle.std.specs.Prelude.{◌≡◌};

/// How a call of the service ended. Its number is the exit status of the program.
#[derive(Clone, Copy, Debug, PartialEq, Eq, Drop)]
pub enum Status {
    /// All that the words ask for was done, and what there was to say was spoken.
    Ok,
    /// The words are none of the forms.
    Usage,
    /// The schema's text has a fault.
    SchemaRefused,
    /// The store is refused: it is to be made in a file that has octets, or it is not mounted.
    StoreRefused,
    /// There was no memory.
    NoMemory,
    /// The schema's source or the script's failed.
    ReadFault,
    /// The disk failed.
    DiskFault,
    /// Speech failed.
    SpeakFault,
    /// The script has more lines or bytes than are served.
    ScriptTooLong,
}

impl Status {
    ghost use Rattle.pss_serving.specs.Codes.{code_of};

    /// The exit status of the program, from 0 to 8.
    pub fn code(self) -> u8
        ensures { result ≡ code_of self }
    {
        match self {
            Status::Ok => 0,
            Status::Usage => 1,
            Status::SchemaRefused => 2,
            Status::StoreRefused => 3,
            Status::NoMemory => 4,
            Status::ReadFault => 5,
            Status::DiskFault => 6,
            Status::SpeakFault => 7,
            Status::ScriptTooLong => 8,
        }
    }
}
