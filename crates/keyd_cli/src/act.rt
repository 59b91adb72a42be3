// The statements of a schedule.
use store_model::Mtr;

/// What a statement of a schedule asks for.
#[derive(Debug, Drop)]
pub enum DrillAct {
    /// Commits a mini-transaction of a session.
    Mtr { session: u32, mtr: Mtr },
    /// Writes the journal out and acknowledges it.
    Sync,
}

/// A statement and its line, counted from 1.
#[derive(Debug, Drop)]
pub struct DrillStatement {
    pub line: u32,
    pub act: DrillAct,
}
