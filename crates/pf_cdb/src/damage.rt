//! What may be wrong with a file.

/// What is wrong with a file that is no whole cdb file. Tables and slots are counted from 0.
#[derive(Clone, Copy, Debug, PartialEq, Eq)]
pub enum Damage {
    /// The file has fewer than 2,048 bytes.
    Header,
    /// The slots of the table end after the file.
    TableRange { table: u32 },
    /// The slot names a place in the header, or too near to the file's end for a record.
    SlotRange { table: u32, slot: u32 },
    /// The key or the value of the record at `at` ends after the file.
    RecordRange { at: u32 },
    /// The key that the slot names has not the hash of the slot, or its hash is of another table.
    WrongHash { table: u32, slot: u32 },
}

/// The kinds of damage that are looked for in each slot, in their order.
#[derive(Clone, Copy, Debug, PartialEq, Eq)]
pub(crate) enum Kind {
    Slots,
    Records,
    Hashes,
}
