//! The commands of a script.

use crate::word::Word;
use ghg_units::Text;

/// A command of a script of such requests.
#[derive(Drop)]
pub enum Command<R> {
    /// A request to be answered.
    Request(R),
    /// The end of the script.
    End,
}

/// What a script asks for, where `Q` are the requests that one line holds.
#[derive(Drop)]
pub enum Request<Q> {
    /// To take a submission: its id, and its body up to the first byte that is too many.
    Submit { id: Word, body: Text },
    /// What one line asks for.
    Query(Q),
}

/// What a line says that begins a command.
#[derive(Drop)]
pub enum Line<Q> {
    /// An id, and how many bytes of body follow the line.
    Submit { id: Word, length: u32 },
    /// A request that has no body.
    Query(Q),
    /// The end of the script.
    End,
}
