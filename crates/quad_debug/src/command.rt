// What a debugger is told to do.

/// The number of a cell of ROM or RAM.
#[derive(Clone, Copy, Debug, PartialEq, Eq)]
pub enum Place {
    Rom(u32),
    Ram(u32),
}

/// What a debugger is told to do.
#[derive(Clone, Copy, Debug, PartialEq, Eq)]
pub enum Command {
    /// Take so many turns.
    Step(u32),
    /// Take turns until so many more events ended.
    Event(u32),
    /// Take turns until that message is in flight, or its event ended.
    BreakAt(u32),
    /// Show a cell.
    Show(Place),
    /// Tell the ready messages.
    Queue,
    /// Tell the sponsors and their amounts.
    Sheet,
    /// Tell so many of the last entries.
    Back(u32),
}
