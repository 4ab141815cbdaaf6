//! How many owed notices stand where.

/// The owed notices by what became of them, then the outbox entries, then the removals of revoked pushes that wait
/// and those that were written. A greater count than its type holds is given as the greatest value of the type.
#[derive(Clone, Copy, Debug, PartialEq, Eq)]
pub struct Counts {
    pub flight: u64,
    pub held: u64,
    pub ready: u64,
    pub handed: u64,
    pub read: u64,
    pub deleted: u64,
    pub off: u64,
    pub live: u64,
    pub entries: u64,
    pub waiting: u64,
    pub written: u64,
}
