// Why a line is no request.
use thiserror::Error;

#[derive(Clone, Copy, Debug, PartialEq, Eq, Error)]
pub(crate) enum Fault {
    #[error("no such request; help lists them")]
    NoName,
    #[error("the room is no number up to 1024")]
    NoRoom,
    #[error("an input is missing")]
    Missing,
    #[error("too many inputs")]
    TooMany,
    #[error("an input is not hexadecimal bytes")]
    NotBytes,
    #[error("a number is not decimal, or too large")]
    NotANumber,
    #[error("the request has no value to lend room for")]
    NoValue,
    #[error("the line is longer than 16384 bytes")]
    TooLong,
}
