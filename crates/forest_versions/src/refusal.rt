//! Why a command can't be given where it stands.

/// The first reason why a command can't be given.
#[derive(Clone, Copy, Debug, PartialEq, Eq)]
pub enum Refusal {
    /// The event is defined already, or the registration or the rule is there.
    Duplicate,
    /// The event's parent or the registration's event isn't defined, or what is to be removed isn't there.
    NoSuchNumber,
    /// The event's path would be longer than 8.
    TooDeep,
    /// The registration's hook isn't one of its root's, or it drops at the receiver's side.
    WrongHook,
}
