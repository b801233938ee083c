//! What the box of a handle holds.

use mapdb::{Database, Scratch};

/// A database, and what its calls lend one another.
#[derive(Drop)]
pub struct Kept {
    pub database: Database,
    pub scratch: Scratch,
}
