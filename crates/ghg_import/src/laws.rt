//! What holds of the forms of rows alone.

ghost use Rattle.std.specs.Prelude.{◌≡◌};
ghost use Rattle.ghg_import.specs.declared.rows.TheConstants.{MAX_BODY};
ghost use Rattle.ghg_import.specs.Laws.{RowsAreWellFormed};

/// Each row that a body says, up to the first that breaks a rule, is well formed.
pub fn rows_are_well_formed()
    ensures { RowsAreWellFormed }
{}

/// The most bytes of a body: 4 MiB.
pub fn limit_is_number()
    ensures { MAX_BODY ≡ 4_194_304 }
{}
