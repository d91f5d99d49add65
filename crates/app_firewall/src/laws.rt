//! What rules mean, in an administrator's words. Each law is the contract of a function that does nothing.

ghost use Rattle.std.specs.Prelude.{◌≡◌, ℕ, ◌≢◌, false, List, [], ◌∷◌, ◌++◌, None, IsTrue, Contains};
ghost use Rattle.native_filters.specs.declared.facts.Facts.{Facts as FactsOf};
ghost use Rattle.app_api.specs.declared.app.Call.{Call as CallOf};
ghost use Rattle.app_api.specs.declared.app.Tally.{Tally as TallyOf};
ghost use Rattle.app_api.specs.declared.rule.Rule.{Rule as RuleOf};
ghost use Rattle.app_api.specs.App.{are_rules};
ghost use Rattle.app_firewall.specs.Decision.{decision};
ghost use Rattle.app_firewall.specs.Firewall.{firewall, is_refused_orphan};
ghost use Rattle.app_firewall.specs.Laws.{allow_any, has_tcp_ports, Covers};

/// With the single rule `allow any any any` no reaction of the firewall asks a drop, whatever it has counted before,
/// but for that to an orphan whose class isn't other: rules don't speak of orphans. Ports are below 2^16, as those of
/// headers are.
pub fn allow_any_refuses_no_connection()
    ensures { (number : ℕ) (t : TallyOf) (call : CallOf)
        → IsTrue (has_tcp_ports call.facts) → is_refused_orphan call ≡ false
        → (firewall.react t call (allow_any number ∷ [])).1.drop ≡ None }
{}

/// A rule behind one that matches whatever it matches never decides: no decision has its number, and every tally and
/// every reaction is what the rules without it give.
pub fn covered_rule_never_decides()
    ensures never { (before after : List RuleOf) (wide narrow : RuleOf)
        → IsTrue (are_rules (before ++ narrow ∷ after)) → Contains before wide → Covers wide narrow
        → (facts : FactsOf) → (decision (before ++ narrow ∷ after) facts).1 ≢ narrow.number }
    ensures without { (before after : List RuleOf) (wide narrow : RuleOf)
        → Contains before wide → Covers wide narrow
        → (t : TallyOf) (call : CallOf)
        → firewall.react t call (before ++ narrow ∷ after) ≡ firewall.react t call (before ++ after) }
{}
