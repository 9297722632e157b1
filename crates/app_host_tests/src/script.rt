//! Scripts of tests: the spares of a host, and line by line what it is given or asked, with what is expected.

/// A spare of the host. It is watched: what becomes of it is tallied.
#[derive(Clone, Copy)]
pub enum Spare {
    /// The counter of this profile.
    Counting,
    /// The application whose name is the letter of this number, from `A` on. It writes its letter for each packet, and at each
    /// tick it publishes eight packets.
    Publishing(u8),
    /// The application whose name is the letter of this number. It sends an event at its start, and writes its letter for each
    /// packet of 0x18D0 and at its retirement.
    Speaking(u8),
}

/// A record.
#[derive(Clone, Copy)]
pub enum Given<'a> {
    /// A tick.
    Tick,
    /// A packet, by its bytes.
    Packet(&'a [u8]),
    /// A command to the executive services: its code, and the application.
    Order(u8, &'a [u8]),
}

/// What the host writes.
#[derive(Clone, Copy)]
pub enum Output<'a> {
    /// An event of this application, or of `HOST`: its id and its text.
    Event(&'a [u8], u16, &'a [u8]),
    /// What applications with letters write.
    Letters(&'a [u8]),
}

/// One line.
#[derive(Clone, Copy)]
pub enum ScriptLine<'a> {
    /// A record, and all that the host writes.
    Step(Given<'a>, &'a [Output<'a>]),
    /// A record at which the writer fails after this many bytes of its output.
    Cut(Given<'a>, usize),
    /// Whether an application of the name runs, as expected.
    Runs(&'a [u8], bool),
    /// The expected calls of `on_packet` for the last record.
    Calls(u32),
    /// The expected number of objects dropped so far.
    Drops(u32),
}
