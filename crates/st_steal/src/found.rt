//! What a worker reads in its mail.

/// What a worker's mail word says.
#[derive(Clone, Copy, PartialEq, Eq, Debug)]
pub enum Mail {
    /// The worker wants nothing.
    Nothing,
    /// The worker waits for an answer.
    Waiting,
    /// A chain lies in its mail.
    Given,
    /// Its request was refused.
    Refused,
}
