//! Pseudo-random definitions and lists: a walk beside a check of each registration alone, and `edit` beside `build`.

ghost use Rattle.std.specs.Prelude.{◌≤◌, length};

use crate::definitions::define;
use crate::forests::{are_built, built, switched};
use crate::natives::is_true;
use crate::walks::{facts_of, gives};
use app_api::{END, PKT_IN, Reg, START};
use event_trees::Defs;
use native_filters::{Facts, Hook};
use shared_forest::{ForestView, Table, Tree};
use std::alloc::{AllocError, Global};

/// Numbers that look random: a linear congruential generator.
#[derive(Drop)]
struct Random {
    state: u32,
}

impl Random {
    // A number below 16.
    fn draw(&mut self) -> u8 {
        self.state = self
            .state
            .wrapping_mul(1_664_525)
            .wrapping_add(1_013_904_223);
        (self.state >> 28) as u8
    }

    fn hook(&mut self) -> Hook {
        if self.draw() < 8 {
            Hook::Snd
        } else {
            Hook::Rcv
        }
    }

    fn root(&mut self) -> u16 {
        match self.draw() {
            0..12 => PKT_IN,
            12..14 => START,
            _ => END,
        }
    }

    // One of those defined, or a built-in event.
    fn event(&mut self, defs: &Defs) -> u16 {
        for _ in 0..3 {
            let number = u16::from(self.draw());
            if defs.find(number).is_some() {
                return number;
            }
        }
        self.root()
    }

    fn filter(&mut self) -> &'static str {
        match self.draw() {
            0..8 => "true",
            8..11 => "len > 3",
            11..14 => "len % 2 = 0",
            _ => "!(len = 5)",
        }
    }
}

// Adds up to 15 events, each under a built-in event or one that was defined before it.
fn define_some(alloc: Global, random: &mut Random, defs: &mut Defs) -> bool {
    for _ in 0..random.draw() {
        let number = u16::from(random.draw());
        let parent = random.event(defs);
        let Some((_, len)) = defs.root_of(parent) else {
            return false;
        };
        if number > 0
            && defs.find(number).is_none()
            && len < 8
            && !define(alloc, defs, (number, parent, random.filter()))
        {
            return false;
        }
    }
    true
}

// The number at a place. Steps of 7 go through all numbers from 16 to 31, each once.
fn number_at(first: u8, place: u8) -> u8 {
    16 + (first % 16 + 7 * (place % 16)) % 16
}

// Up to eight registrations with numbers of their own, in no order.
fn some_regs(alloc: Global, defs: &Defs, random: &mut Random) -> Result<Vec<Reg>, AllocError> {
    let mut regs = Vec::new(alloc);
    let first = random.draw();
    for place in 0..random.draw() % 9 {
        let event = random.event(defs);
        regs.push(Reg::preset(number_at(first, place), event, random.hook(), true))?;
    }
    Ok(regs)
}

// How many events are on the path of an event, itself included.
fn depth_of(defs: &Defs, event: u16) -> usize {
    match defs.root_of(event) {
        Some((_, len)) => usize::from(len),
        None => 0,
    }
}

// The path of an event, from its root on, and zeros behind it.
fn path_of(defs: &Defs, event: u16) -> [u16; 8] {
    let mut path = [0; 8];
    let mut event = event;
    for place in (0..depth_of(defs, event)).rev() {
        if let Some(step) = path.get_mut(place) {
            *step = event;
        }
        if let Some(def) = defs.find(event) {
            event = def.parent;
        }
    }
    path
}

// Whether a registration comes before another: by path, and then by number.
fn comes_before(defs: &Defs, one: &Reg, other: &Reg) -> bool {
    let path = path_of(defs, one.event);
    let other_path = path_of(defs, other.event);
    (path.as_slice(), one.number) < (other_path.as_slice(), other.number)
}

// How many registrations of a list come before another.
fn count_before(defs: &Defs, list: &[Reg], reg: &Reg) -> usize
    ensures { result ≤ length list.now }
{
    let mut count = 0;
    for other in list {
        if comes_before(defs, other, reg) {
            count += 1;
        }
    }
    count
}

// The private list of these registrations.
fn in_order(alloc: Global, defs: &Defs, regs: &[Reg]) -> Option<Vec<Reg>> {
    let mut list = Vec::new(alloc);
    for reg in regs {
        let place = count_before(defs, list.as_slice(), reg);
        list.insert(place, *reg).ok()?;
    }
    Some(list)
}

// Whether a raise passes a path: it begins with the raise's event, and all filters on it are true.
fn passes(defs: &Defs, path: &[u16], event: u16, facts: &Facts) -> bool {
    for step in path {
        if let Some(def) = defs.find(*step) {
            if !is_true(&def.filter, facts) {
                return false;
            }
        }
    }
    path.first() == Some(&event)
}

// What a check of each registration of a list gives, each alone.
fn checked_alone(
    alloc: Global,
    defs: &Defs,
    list: &[Reg],
    hook: Hook,
    event: u16,
    facts: &Facts,
) -> Result<Vec<u8>, AllocError> {
    let mut numbers = Vec::new(alloc);
    for reg in list {
        if reg.hook == hook && passes(defs, &path_of(defs, reg.event), event, facts) {
            numbers.push(reg.number)?;
        }
    }
    Ok(numbers)
}

// The raises of both phases.
const RAISES: &[(u16, Hook)] = &[
    (START, Hook::Snd),
    (START, Hook::Rcv),
    (PKT_IN, Hook::Snd),
    (PKT_IN, Hook::Rcv),
    (END, Hook::Snd),
    (END, Hook::Rcv),
];

// Whether walks over the tree of a list give what checks of each registration alone give.
fn walks_agree(alloc: Global, defs: &Defs, tree: &Tree, list: &[Reg], facts: &Facts) -> bool {
    for &(event, hook) in RAISES {
        let Ok(numbers) = checked_alone(alloc, defs, list, hook, event, facts) else {
            return false;
        };
        if !gives(defs, tree, hook, event, facts, &numbers) {
            return false;
        }
    }
    true
}

// The row of the tree of these registrations by `build`, where walks over it give what they have to.
fn row_of(alloc: Global, table: &mut Table, defs: &Defs, regs: &[Reg], len: u64) -> Option<usize> {
    let list = in_order(alloc, defs, regs)?;
    let forest = built(alloc, table, defs, &list)?;
    let tree = table.tree_of(&forest.shared);
    if walks_agree(alloc, defs, tree, &list, &facts_of(len)) {
        Some(forest.shared.row())
    } else {
        None
    }
}

// Whether the tree is that of the whole list each time: some are switched on, and the first of them off again.
fn edits_agree(alloc: Global, defs: &Defs, regs: &[Reg], len: u64, cut: u8) -> bool {
    let mut table = Table::new(alloc);
    let Some(empty) = built(alloc, &mut table, defs, &[]) else {
        return false;
    };
    let mut made = Vec::new(alloc);
    let Some(full) = switched(alloc, &mut table, defs, empty, regs, true, &mut made) else {
        return false;
    };
    let reached = full.shared.row();
    let (first, rest) = regs.split_at(usize::from(cut) % (regs.len() + 1));
    match switched(alloc, &mut table, defs, full, first, false, &mut made) {
        Some(fewer) => {
            row_of(alloc, &mut table, defs, regs, len) == Some(reached)
                && row_of(alloc, &mut table, defs, rest, len) == Some(fewer.shared.row())
                && are_built(alloc, &mut table, defs, &made)
        }
        None => false,
    }
}

// One round, on definitions and a list of its own.
fn agrees(alloc: Global, random: &mut Random) -> bool {
    let mut defs = Defs::new(alloc);
    if !define_some(alloc, random, &mut defs) {
        return false;
    }
    let Ok(regs) = some_regs(alloc, &defs, random) else {
        return false;
    };
    let len = u64::from(random.draw());
    let cut = random.draw();
    edits_agree(alloc, &defs, &regs, len, cut)
}

#[test]
fn edits_and_walks_agree_with_lists(rt: HostRuntime) {
    let mut random = Random { state: 1 };
    for round in 0..300u16 {
        assert!(rt; agrees(rt.alloc(), &mut random), "round {round}");
    }
}
