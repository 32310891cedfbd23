// The form in memory whose calls do not fail.
ghost use Rattle.std.specs.Prelude.{◌≡◌, ◌-◌, ◌≤◌, ◌++◌, ◌∷◌, [], length, slice_get, Some, None, Ok, IsTrue, IfOk, IfErr, OnOk, OnErr};
ghost use Rattle.ghg_keeper.specs.Forms.{stored_shelf};
ghost use Rattle.ghg_keeper.specs.Id.{is_id};

use crate::{KeepError, Keeper, KeptRow};
use ghg_units::Text;
use std::alloc::{AllocError, Global};
use std::marker::Model;

/// Rows in memory, in one store under any name. No call fails, but memory may run out. It counts no faults:
/// those that it tells are none.
#[derive(Drop)]
pub struct SteadyKeeper {
    rows: Vec<KeptRow>,
    name: Option<Text>,
    alloc: Global,
}

impl Model for SteadyKeeper {
    ghost use Rattle.ghg_keeper.specs.Forms.{Stored};

    ghost Value = { Stored };

    ghost view = { λ k. record { rows = k.rows.items; name = k.name } };
}

impl SteadyKeeper {
    /// A keeper with no row. It takes no memory.
    pub fn new(alloc: Global) -> SteadyKeeper
        ensures { result ≡ record { rows = []; name = None } }
    {
        SteadyKeeper::with_rows(alloc, Vec::new(alloc))
    }

    /// A keeper with these rows.
    pub(crate) fn with_rows(alloc: Global, rows: Vec<KeptRow>) -> SteadyKeeper
        ensures { result ≡ record { rows = rows.items; name = None } }
    {
        SteadyKeeper {
            rows,
            name: None,
            alloc,
        }
    }

    /// Takes the name for that of the store.
    pub(crate) fn set_name(&mut self, name: &str) -> Result<(), AllocError>
        ensures rows { self.new.rows ≡ self.old.rows }
        ensures ok { OnOk result (self.new.name ≡ Some name.now) }
        ensures err { OnErr result (self.new.name ≡ self.old.name) }
    {
        self.name = Some(Text::new(name.as_bytes().to_vec(self.alloc)?));
        Ok(())
    }

    /// How many rows there are.
    pub(crate) fn len(&self) -> u64
        ensures { result ≡ length self.now.rows }
    {
        self.rows.len() as u64
    }

    /// A copy of the row of this number.
    pub(crate) fn copied_row(&self, seq: u64) -> Result<KeptRow, AllocError>
        requires counted { 1 ≤ seq }
        requires present { seq ≤ length self.now.rows }
        ensures { IfOk result (λ row. slice_get self.now.rows (seq - 1) ≡ Some row) }
    {
        let row = &self.rows[seq as usize - 1];
        KeptRow::new(self.alloc, row.id.as_slice(), row.body.as_slice())
    }

    /// Puts one row behind the others, or none where memory runs out.
    pub(crate) fn push(&mut self, id: &[u8], body: &[u8]) -> Result<(), AllocError>
        ensures name { self.new.name ≡ self.old.name }
        ensures ok { OnOk result
            (self.new.rows ≡ self.old.rows ++ record { id = id.now; body = body.now } ∷ []) }
        ensures err { OnErr result (self.new.rows ≡ self.old.rows) }
    {
        let row = KeptRow::new(self.alloc, id, body)?;
        self.rows.push(row)?;
        Ok(())
    }
}

impl Keeper for SteadyKeeper {
    ghost shelf = { λ k. stored_shelf k 0 };

    fn attach(&mut self, name: &str) -> Result<(), KeepError>
        ensures rows { self.new.rows ≡ self.old.rows }
        ensures ok { OnOk result (self.new.name ≡ Some name.now) }
        ensures err { OnErr result (self.new.name ≡ self.old.name) }
        ensures memory { IfErr result (λ error. error ≡ KeepError.Memory) }
    {
        Ok(self.set_name(name)?)
    }

    fn count(&mut self) -> Result<u64, KeepError>
        ensures count { result ≡ Ok (length self.old.rows) }
        ensures keeps { self.new ≡ self.old }
    {
        Ok(self.len())
    }

    fn row(&mut self, seq: u64) -> Result<KeptRow, KeepError>
        requires counted { 1 ≤ seq }
        requires present { seq ≤ length self.old.rows }
        ensures row { IfOk result (λ row. slice_get self.old.rows (seq - 1) ≡ Some row) }
        ensures keeps { self.new ≡ self.old }
        ensures memory { IfErr result (λ error. error ≡ KeepError.Memory) }
    {
        Ok(self.copied_row(seq)?)
    }

    fn append(&mut self, id: &[u8], body: &[u8]) -> Result<u64, KeepError>
        requires { IsTrue (is_id id.now) }
        ensures name { self.new.name ≡ self.old.name }
        ensures ok { OnOk result
            (self.new.rows ≡ self.old.rows ++ record { id = id.now; body = body.now } ∷ []) }
        ensures number { IfOk result (λ seq. seq ≡ length self.new.rows) }
        ensures err { OnErr result (self.new.rows ≡ self.old.rows) }
        ensures memory { IfErr result (λ error. error ≡ KeepError.Memory) }
    {
        self.push(id, body)?;
        Ok(self.len())
    }
}
