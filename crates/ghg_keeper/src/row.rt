ghost use Rattle.std.specs.Prelude.{◌≡◌, ◌∷◌, ◌++◌, [], IfOk, OnOk, OnErr};

use ghg_units::Text;
use std::alloc::{AllocError, Global};

/// An accepted submission as it is kept.
#[derive(Drop)]
pub struct KeptRow {
    /// The id of the submission.
    pub id: Text,
    /// Its body, with the bytes as they came.
    pub body: Text,
}

impl KeptRow {
    /// A row with copies of these bytes.
    pub fn new(alloc: Global, id: &[u8], body: &[u8]) -> Result<KeptRow, AllocError>
        ensures { IfOk result (λ row. row ≡ record { id = id.now; body = body.now }) }
    {
        Ok(KeptRow {
            id: Text::new(id.to_vec(alloc)?),
            body: Text::new(body.to_vec(alloc)?),
        })
    }
}
