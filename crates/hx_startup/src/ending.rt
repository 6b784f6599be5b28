//! How a run ends.
ghost use Rattle.std.specs.Prelude.{◌≡◌, ◌⊎◌};
ghost use Rattle.hx_base.specs.Counts.{Rose};
ghost use Rattle.hx_link.specs.Whole.{WritesAll, WritesPart};
ghost use Rattle.hx_startup.specs.Starts.{Ends, status_of, text_of};

use hx_link::{Sink, write_all};

/// What a run comes to, before its text is written.
#[derive(Drop)]
pub enum Ending {
    /// It did what was asked for: a check, or serving until it was stopped.
    Done(Vec<u8>),
    /// The words aren't those of the command.
    Usage(Vec<u8>),
    /// The file of the configuration, or the source of orders, failed.
    SourceFault,
    /// The line of the configuration's first fault.
    ConfigFault(Vec<u8>),
    /// The door failed while it began to listen.
    ListenFault,
    NoMemory,
}

fn status(ending: &Ending) -> u8
    ensures { result ≡ status_of ending.now }
{
    match ending {
        Ending::Done(_) => 0,
        Ending::Usage(_) => 1,
        Ending::SourceFault => 2,
        Ending::ConfigFault(_) => 4,
        Ending::ListenFault => 5,
        Ending::NoMemory => 9,
    }
}

fn text(ending: &Ending) -> &[u8]
    ensures { result.now ≡ text_of ending.now }
{
    match ending {
        Ending::Done(text) | Ending::Usage(text) | Ending::ConfigFault(text) => text.as_slice(),
        Ending::ListenFault => b"listen fault\n",
        Ending::SourceFault | Ending::NoMemory => &[],
    }
}

/// Writes what is due at the end of a run, and answers its status: 0 done, 1 the words, 2 the file or the orders, 4 the
/// configuration, 5 listening, 9 want of memory; or 3, where the sink failed.
pub fn end<K: Sink>(sink: &mut K, ending: &Ending) -> u8
    ensures { Ends ending.now (K.state sink.old) (K.state sink.new) result }
{
    match write_all(sink, text(ending)) {
        Ok(()) => status(ending),
        Err(_) => 3,
    }
}
