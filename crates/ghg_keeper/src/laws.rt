//! What holds of the limits of a store alone.

ghost use Rattle.std.specs.Prelude.{◌≡◌};
ghost use Rattle.ghg_keeper.specs.declared.keeper.TheConstants.{MAX_ID_LEN};

/// The most bytes of the id of a submission.
pub fn limit_is_number()
    ensures { MAX_ID_LEN ≡ 40 }
{}
