//! Kept submissions: a list of rows that outlives a session.
#![tactic(auto)]

mod file;
mod keeper;
mod laws;
mod memory;
mod moves;
mod row;
mod sql;
mod statements;
mod steady;
mod table;

pub use file::FileKeeper;
pub use keeper::{KeepError, Keeper, MAX_ID_LEN};
pub use laws::limit_is_number;
pub use memory::MemoryKeeper;
pub use row::KeptRow;
pub use sql::SqlKeeper;
pub use sqlite::Unknown;
pub use steady::SteadyKeeper;
