//! The applications of mos by their kinds.

ghost use Rattle.std.specs.Prelude.{◌≡◌};
ghost use Rattle.applications.specs.Apps.{apps, named_in};

use app_api::{App, Call, LogApp, Reaction, Reg, Rule, Tally};
use app_firewall::FirewallApp;
use app_traffic::{AcctApp, RexmitApp};
use native_filters::Hook;

/// The application that a run calls: each of its calls is the call of the application that bears the name. So all above is
/// there once for all of them. `./mos --help` shows what stands at each.
#[derive(Clone, Copy, PartialEq, Eq, Debug)]
pub enum AppKind {
    /// A line for each packet at each of its ends.
    Log,
    /// Packets, bytes, new bytes and last states, by connection.
    Acct,
    /// Bytes that came again, and those that came again with other values.
    Rexmit,
    /// Drops what the script's rules don't allow; without rules all TCP.
    Firewall,
}

/// A literal that has the words of the applications, with a bar between two, behind one text and before another.
#[macro_export]
macro_rules! around_app_words {
    ($front:literal, $back:literal) => {
        concat!($front, "log|acct|rexmit|firewall", $back)
    };
}

/// The kind that a word names.
pub fn kind_named(word: &str) -> Option<AppKind>
    ensures { result ≡ named_in apps word.now }
{
    match word {
        "log" => Some(AppKind::Log),
        "acct" => Some(AppKind::Acct),
        "rexmit" => Some(AppKind::Rexmit),
        "firewall" => Some(AppKind::Firewall),
        _ => None,
    }
}

impl App for AppKind {
    ghost use Rattle.applications.specs.Apps.{meaning_of, lawful_app};

    ghost meaning = { λ kind. meaning_of kind };

    ghost lawful = { λ kind. lawful_app kind };

    fn preset(&self, number: u8) -> Option<Reg> {
        match self {
            AppKind::Log => LogApp.preset(number),
            AppKind::Acct => AcctApp.preset(number),
            AppKind::Rexmit => RexmitApp.preset(number),
            AppKind::Firewall => FirewallApp.preset(number),
        }
    }

    fn fresh(&self) -> Tally {
        match self {
            AppKind::Log => LogApp.fresh(),
            AppKind::Acct => AcctApp.fresh(),
            AppKind::Rexmit => RexmitApp.fresh(),
            AppKind::Firewall => FirewallApp.fresh(),
        }
    }

    #[inline(always)]
    fn react(&self, t: &mut Tally, call: &Call, rules: &[Rule]) -> Reaction {
        match self {
            AppKind::Log => LogApp.react(t, call, rules),
            AppKind::Acct => AcctApp.react(t, call, rules),
            AppKind::Rexmit => RexmitApp.react(t, call, rules),
            AppKind::Firewall => FirewallApp.react(t, call, rules),
        }
    }

    #[inline(always)]
    fn rests_at(&self, hook: Hook) -> bool {
        match self {
            AppKind::Log => LogApp.rests_at(hook),
            AppKind::Acct => AcctApp.rests_at(hook),
            AppKind::Rexmit => RexmitApp.rests_at(hook),
            AppKind::Firewall => FirewallApp.rests_at(hook),
        }
    }

    fn field(&self, i: u8, t: &Tally) -> Option<(&str, u64)> {
        match self {
            AppKind::Log => LogApp.field(i, t),
            AppKind::Acct => AcctApp.field(i, t),
            AppKind::Rexmit => RexmitApp.field(i, t),
            AppKind::Firewall => FirewallApp.field(i, t),
        }
    }
}
