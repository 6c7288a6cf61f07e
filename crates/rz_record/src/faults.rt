//! Why bytes are refused.

/// The fields of a head with a rule, in the order in which they are looked at.
#[derive(Clone, Copy, PartialEq, Eq, Drop)]
pub enum Field {
    Layout,
    Bsize,
    Position,
    Reserved,
    Length,
    Base,
}

/// Why bytes are not read as a record.
#[derive(Clone, Copy, PartialEq, Eq, Drop)]
pub enum RecordFault {
    /// There are fewer bytes than the head, or the record, has.
    Short { have: usize, need: usize },
    /// The stamp is zero.
    Empty,
    /// The first field that is not as it may be, and what stands there.
    BadField { field: Field, value: u64 },
}
