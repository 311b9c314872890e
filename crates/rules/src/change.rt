// What an answer does to paths and units.
// What an answer does to the sender's mark and attention.
#[derive(Clone, Copy)]
pub enum SenderChange {
    // Both stay: RESUME set, path not marked.
    Stays,
    // No room: the path is marked or stays so.
    SetMark,
    // Rule 2 is passed: the mark is cleared.
    ClearMark,
    // The pending attention is reported: the mark is cleared, and attention becomes none.
    ClearMarkAndAttention,
}

// What an answer does to the queue of the command's unit.
#[derive(Clone, Copy)]
pub enum QueueChange {
    // The unit's ACA stays as it is.
    Leaves,
    // STATUS 02h by rules 7 to 10: the unit gets ACA for the sender, unless it has one.
    Holds,
}

#[derive(Clone, Copy)]
pub enum Change {
    // All stay.
    Nothing,
    // A command is answered: the mark and attention of its sender, the path at a place.
    OfSender(u8, SenderChange),
    // The same, and the queue is held: a unit gets ACA for the sender, unless it has one.
    Holding {
        path: u8,
        sender: SenderChange,
        unit: u8,
    },
    // CLEAR TASK SET: each path of a map, those that lost a task, gets cleared attention, unless reset is pending.
    ClearedAttention(u8),
    // CLEAR ACA: the unit's ACA goes.
    AcaGoes(u8),
    // A reset: reset attention on all paths, marks stay, and the ACA goes: of a unit, Some(unit), or of all units, None.
    Resets(Option<u8>),
}
