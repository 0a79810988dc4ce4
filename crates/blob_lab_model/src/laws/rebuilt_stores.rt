//! Names that were opened can be opened again, in a rebuilt store too.

ghost use Rattle.blob_lab_model.specs.Laws.{AcceptedOpenIsTold, KeptNamesOpen, KeptNamesOpenAgain, RebuiltFilesAreFound, RebuiltOpenIsTold};

/// A name that an open accepted can be opened again in every later state, if no call has removed it. Failed removals,
/// crashes and rebuilds may happen in between. Conditions: the range includes the name's version, the name isn't open,
/// no fault is injected, and numbers are left. The open returns the version that the first open returned, and the
/// number of bytes of the name's file. As always, the reply may be `Memory` instead.
pub fn accepted_names_open()
    ensures kept { KeptNamesOpen }
    ensures told { AcceptedOpenIsTold }
{}

/// After a rebuild, an incarnation that was current can be opened again with its durable bytes, if the range includes
/// its version, no fault is injected, and numbers are left. So can every name that an open accepted and no call removed
/// since. Failed removals, crashes and further rebuilds may happen in between. As always, the reply may be `Memory`
/// instead.
pub fn accepted_names_open_again()
    ensures found { RebuiltFilesAreFound }
    ensures told { RebuiltOpenIsTold }
    ensures kept { KeptNamesOpenAgain }
{}
