//! What the fields mean, in the words of who looks for scans.

ghost use Rattle.std.specs.Prelude.{List};
ghost use Rattle.app_api.specs.declared.app.Call.{Call as CallOf};
ghost use Rattle.scans.specs.Laws.{Counts};

/// After any calls the SYNs are those that were told, modulo 2^64, and each mark is set where a call was told that sets it.
pub fn knocks_are_counted()
    ensures { (calls : List CallOf) → Counts calls }
{}
