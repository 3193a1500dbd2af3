//! What is kept of a line whose command was handed out.
use pol_script::LineFault;

/// What the answer to a line needs of it, beside what its session was told.
#[derive(Debug, Drop)]
pub enum Mark {
    /// The line has this fault.
    Faulty(LineFault),
    /// It is a command of this session.
    Of(u8),
    /// It ends a phase.
    Phase,
}
