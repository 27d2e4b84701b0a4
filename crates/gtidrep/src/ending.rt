//! How the program ends: its exit status, and its message on standard error.
ghost use Rattle.std.specs.Prelude.{◌≡◌};
ghost use Rattle.gtidrep.specs.Status.{message_of, ran_over_file, status_of};

use crate::help::FUNCTIONS;
use crate::line::CommandFault;
use commands::{Outcome, RunFault};

/// How the program ends.
#[derive(Drop)]
pub enum Ending {
    /// A command ran.
    Ran(Result<Outcome, RunFault>),
    /// The file that a command was to read couldn't be opened, or reading it failed.
    FileUnread,
    /// The words of the command line are no command.
    NoCommand(CommandFault),
}

/// How the program ends where a command has run over a file in the place of standard input.
pub fn ran_over_file(ended: Result<Outcome, RunFault>) -> Ending
    ensures { result ≡ ran_over_file ended }
{
    match ended {
        Err(RunFault::Read) => Ending::FileUnread,
        ended => Ending::Ran(ended),
    }
}

/// The status that the program ends with (our own rule).
pub fn exit_status(ending: &Ending) -> u8
    ensures { result ≡ status_of ending.now }
{
    match ending {
        Ending::Ran(Ok(Outcome::Done)) => 0,
        Ending::Ran(Ok(Outcome::Refused)) => 1,
        Ending::Ran(Ok(Outcome::Assumed)) => 5,
        Ending::Ran(Ok(Outcome::Misused)) => 2,
        Ending::Ran(Err(RunFault::Memory)) => 3,
        Ending::Ran(Err(RunFault::Read)) => 4,
        Ending::Ran(Err(RunFault::Write)) => 4,
        Ending::FileUnread => 4,
        Ending::NoCommand(CommandFault::Memory) => 3,
        Ending::NoCommand(CommandFault::NotUtf8) => 2,
        Ending::NoCommand(CommandFault::Line(_)) => 2,
    }
}

/// The message on standard error, after what the command wrote there: whole lines, and none where the command has written its whole
/// answer (our own rule). It does not allocate.
pub fn message(ending: &Ending) -> &str
    ensures { result.now ≡ message_of ending.now }
{
    match ending {
        Ending::Ran(Ok(Outcome::Done)) => "",
        Ending::Ran(Ok(Outcome::Assumed)) => "",
        Ending::Ran(Ok(Outcome::Refused)) => "",
        Ending::Ran(Ok(Outcome::Misused)) => FUNCTIONS,
        Ending::Ran(Err(RunFault::Memory)) => "gtidrep: out of memory\n",
        Ending::Ran(Err(RunFault::Read)) => "gtidrep: reading standard input failed\n",
        Ending::Ran(Err(RunFault::Write)) => "gtidrep: writing failed\n",
        Ending::FileUnread => "gtidrep: reading the file failed\n",
        Ending::NoCommand(CommandFault::Memory) => "gtidrep: out of memory\n",
        Ending::NoCommand(CommandFault::NotUtf8) =>
            "gtidrep: a word of the command line is not UTF-8\n",
        Ending::NoCommand(CommandFault::Line(text)) => text.as_str(),
    }
}
