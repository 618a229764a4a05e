//! What a call answers.
use pool::Refusal;
use quantities::Paise;

/// What an accepted call says.
#[derive(Clone, Copy, PartialEq)]
pub enum Reply {
    /// Nothing.
    Done,
    /// The number of the member that was enrolled.
    Enrolled(usize),
    /// What a query asked for.
    Sum(Paise),
}

/// The reply of a call that was accepted, or what it was refused with.
pub type Answer = Result<Reply, Refusal>;
