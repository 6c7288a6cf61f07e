//! What each client did, and what was printed of it.

/// What an operation does.
#[derive(Clone, Copy, Drop)]
pub enum Deed {
    Create,
    Put,
    Get,
}

/// A block of a file, which belongs to one client, or to nobody (0).
#[derive(Clone, Copy, PartialEq, Eq, Drop)]
pub struct Place {
    pub owner: u64,
    pub file: char,
    pub block: u8,
}

/// A write, by the client that made it and the number of its operation.
#[derive(Clone, Copy, Drop)]
pub struct Write {
    pub client: u64,
    pub number: u64,
}

/// How an operation ended. `TooFew` has the number of nodes that did what was asked.
#[derive(Clone, Copy, Drop)]
pub enum End {
    Created,
    Exists,
    Acked { stamp: u64 },
    Revoked { later: u64 },
    Data { stamp: u64, write: Write },
    Hole,
    Moved { was: u64, now: u64 },
    TooFew { good: u64 },
}

/// An operation and its end.
#[derive(Clone, Copy, Drop)]
pub struct Told {
    pub client: u64,
    pub number: u64,
    pub deed: Deed,
    pub place: Place,
    pub end: End,
}
