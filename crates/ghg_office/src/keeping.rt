//! The row that is kept of an accepted submission.

ghost use Rattle.std.specs.Prelude.{◌≡◌, true, false, OnOk, OnErr, IfOk, IfErr, IsErrOf};
ghost use Rattle.ghg_outer.specs.Counts.{IsCounted};
ghost use Rattle.ghg_keeper.specs.Shelf.{Adds, Keeps};
ghost use Rattle.ghg_office.specs.Replies.{is_failure};

use crate::id::SubmissionId;
use crate::reply::Reply;
use ghg_keeper::Keeper;
use ghg_units::Text;
use std::alloc::Global;

/// A copy of a body. Its row is appended to the keeper's behind that, where it is to be stored.
pub(crate) fn keep_body<K: Keeper>(
    alloc: Global,
    keeper: &mut K,
    stored: bool,
    id: &SubmissionId,
    body: &[u8],
) -> Result<Text, Reply>
    ensures copy { IfOk result (λ text. text ≡ body.now) }
    ensures adds { stored ≡ true → OnOk result
        (Adds (K.shelf keeper.old) (K.shelf keeper.new) (record { id = id.now; body = body.now })) }
    ensures keeps { OnErr result (Keeps (K.shelf keeper.old) (K.shelf keeper.new)) }
    ensures untouched { stored ≡ false → keeper.new ≡ keeper.old }
    ensures failure { IfErr result (λ reply. is_failure reply ≡ true) }
    ensures stored { IsErrOf result Reply.KeeperFault → stored ≡ true }
    ensures faults { IsCounted (K.shelf keeper.old).faults (K.shelf keeper.new).faults
        (IsErrOf result Reply.KeeperFault) }
{
    let text = Text::new(Vec::from_slice(alloc, body)?);
    append_row(keeper, stored, id, body)?;
    Ok(text)
}

// Appends a row to the keeper's where it is to be stored.
fn append_row<K: Keeper>(
    keeper: &mut K,
    stored: bool,
    id: &SubmissionId,
    body: &[u8],
) -> Result<(), Reply>
    ensures adds { stored ≡ true → OnOk result
        (Adds (K.shelf keeper.old) (K.shelf keeper.new) (record { id = id.now; body = body.now })) }
    ensures keeps { OnErr result (Keeps (K.shelf keeper.old) (K.shelf keeper.new)) }
    ensures untouched { stored ≡ false → keeper.new ≡ keeper.old }
    ensures failure { IfErr result (λ reply. is_failure reply ≡ true) }
    ensures stored { OnErr result (stored ≡ true) }
    ensures faults { IsCounted (K.shelf keeper.old).faults (K.shelf keeper.new).faults
        (IsErrOf result Reply.KeeperFault) }
{
    if stored {
        keeper.append(id.as_bytes(), body)?;
    }
    Ok(())
}
