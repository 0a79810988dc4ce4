// A law about numbers from before a name was forgotten.
ghost use Rattle.std.specs.Prelude.{◌≡◌, Ok, None, false};
ghost use Rattle.blob_header.specs.Refusals.{Refusal};
ghost use Rattle.blob_debt.specs.History.{Fail, Close, events, generations, tokens_given, release_result, debt_for};
ghost use Rattle.blob_debt.specs.Recreated.{ForOlder, IgnoresClear, IgnoresSettlement, IsIgnored, open_with_number};

/// Does nothing: its contract is a law of all histories.
///
/// A token or generation from before a name was forgotten is ignored: its settlement, clear, failure and close change neither the
/// recreated name nor any other. It is released without a token, and has no debt.
pub fn old_numbers_leave_recreated_names()
    ensures settle { ForOlder tokens_given IgnoresSettlement }
    ensures clear { ForOlder generations IgnoresClear }
    ensures fail { ForOlder generations (λ h p n g. (e : Refusal) → IsIgnored h p n (Fail g e)) }
    ensures close { ForOlder generations (λ h p n g. IsIgnored h p n (Close g)) }
    ensures release { ForOlder generations (λ h p n g. release_result h (open_with_number p n g) ≡ Ok None) }
    ensures debt { ForOlder generations (λ h p n g. debt_for (events h p n) g ≡ Ok false) }
{}
