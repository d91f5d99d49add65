//! What the fields mean, in the words of who looks for stalls.

ghost use Rattle.std.specs.Prelude.{List};
ghost use Rattle.app_api.specs.declared.app.Call.{Call as CallOf};
ghost use Rattle.stalls.specs.Laws.{Counts};

/// After any calls each count is that of the calls that were told, modulo 2^64.
pub fn stalls_are_counted()
    ensures { (calls : List CallOf) → Counts calls }
{}
