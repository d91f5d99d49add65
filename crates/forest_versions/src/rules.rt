//! The rules for applications, by number.

ghost use Rattle.std.specs.Prelude.{◌≡◌, ◌≤◌, ◌++◌, [], ◌∷◌, length, take, drop, IfOk};
ghost use Rattle.std.specs.Option.{option_copied};
ghost use Rattle.forest_versions.specs.Changes.{ChangesTo};
ghost use Rattle.forest_versions.specs.Rules.{rule_of, put_rule, without_rule};

use app_api::Rule;
use std::alloc::{AllocError, Global};
use std::marker::Model;

/// Rules by rising number. Contracts see the list of them.
#[derive(Debug, Drop)]
pub struct RuleList {
    /// The rules in order.
    pub items: Vec<Rule>,
}

impl Model for RuleList {
    ghost use Rattle.std.specs.Prelude.{List};
    ghost use Rattle.app_api.specs.declared.rule.Rule.{Rule};

    ghost Value = { List Rule };

    ghost view = { λ l. l.items.items };
}

impl RuleList {
    /// No rule.
    pub fn new(alloc: Global) -> RuleList
        ensures { result ≡ [] }
    {
        RuleList {
            items: Vec::new(alloc),
        }
    }

    /// The rules in order.
    pub fn as_slice(&self) -> &[Rule]
        ensures { result.now ≡ self.now }
    {
        self.items.as_slice()
    }

    /// A second list of the same rules.
    pub(crate) fn copy(&self, alloc: Global) -> Result<RuleList, AllocError>
        ensures { IfOk result (λ copy. copy ≡ self.now) }
    {
        let items = Vec::from_slice(alloc, &self.items)?;
        Ok(RuleList { items })
    }

    /// Adds a rule at its place. An error is want of memory, and changes nothing.
    pub(crate) fn put(&mut self, rule: Rule) -> Result<(), AllocError>
        ensures { ChangesTo self.old self.new (put_rule rule self.old) result }
    {
        let place = place_in(&self.items, rule);
        self.items.insert(place, rule)?;
        Ok(())
    }

    /// Removes the rule of a number.
    pub(crate) fn remove(&mut self, number: u8)
        ensures { self.new ≡ without_rule number self.old }
    {
        self.items.retain(|rule| rule.number != number);
    }
}

/// The rule of a number.
pub(crate) fn find_rule(rules: &[Rule], number: u8) -> Option<&Rule>
    ensures { option_copied result ≡ rule_of rules.now number }
{
    rules.iter().find(|rule| rule.number == number)
}

// Where a rule belongs.
fn place_in(rules: &[Rule], rule: Rule) -> usize
    ensures within { result ≤ length rules.now }
    ensures place { put_rule rule rules.now ≡ take result rules.now ++ rule ∷ drop result rules.now }
{
    for i in 0..rules.len() {
        if rule.number < rules[i].number {
            return i;
        }
    }
    rules.len()
}
