//! Idle connections by capture time: the limit at its edges, and a book over many turns.

use flow_timers::{IdleBook, Moment, is_idle};

// A moment's seconds and fraction.
type At = (u32, u32);

fn moment((seconds, fraction): At) -> Moment {
    Moment { seconds, fraction }
}

const LAST: u32 = u32::MAX;

// When it was last heard of, when it is asked, the limit, and whether it is idle then.
const EDGES: &[(&str, At, At, u32, bool)] = &[
    ("the same moment, limit 0", (5, 7), (5, 7), 0, false),
    ("a fraction more, limit 0", (5, 7), (5, 8), 0, true),
    ("a fraction less, limit 0", (5, 7), (5, 6), 0, false),
    (
        "a second more, a lesser fraction, limit 0",
        (5, 7),
        (6, 0),
        0,
        true,
    ),
    (
        "a second less, a greater fraction, limit 0",
        (5, 7),
        (4, 9),
        0,
        false,
    ),
    ("at the limit", (0, 0), (10, 0), 10, false),
    ("a fraction over the limit", (0, 0), (10, 1), 10, true),
    ("a second over the limit", (0, 0), (11, 0), 10, true),
    (
        "in the second of the limit, a lesser fraction",
        (0, 500),
        (10, 499),
        10,
        false,
    ),
    ("before the last moment", (11, 0), (5, 0), 10, false),
    ("the greatest limit from 0", (0, 0), (LAST, 0), LAST, false),
    (
        "the greatest limit from 0, a fraction over",
        (0, 0),
        (LAST, 1),
        LAST,
        true,
    ),
    (
        "the greatest limit from 1, at the last second",
        (1, 0),
        (LAST, LAST),
        LAST,
        false,
    ),
    (
        "the greatest limit, both at the last second",
        (LAST, 0),
        (LAST, LAST),
        LAST,
        false,
    ),
    (
        "the greatest limit, back at the first second",
        (LAST, 0),
        (0, 0),
        LAST,
        false,
    ),
    (
        "limit 1 at the last second",
        (LAST, 0),
        (LAST, LAST),
        1,
        false,
    ),
    (
        "limit 1 up to the last second",
        (LAST - 1, 3),
        (LAST, 4),
        1,
        true,
    ),
    (
        "a fraction of more than a second",
        (5, LAST),
        (6, 0),
        1,
        false,
    ),
];

#[test]
fn idle_at_the_edges(rt: HostRuntime) {
    for &(name, last, now, limit, wanted) in EDGES {
        assert!(rt;
            is_idle(moment(last), moment(now), limit) == wanted,
            "{name}"
        );
    }
}

#[derive(Clone, Copy)]
enum Turn {
    Note(u64, At, u32),
    Forget(u64),
    Due(At, Option<u64>),
}

// The turns go on with one book, so each row stands behind those above it.
const TURNS: &[(&str, Turn)] = &[
    ("an empty book", Turn::Due((LAST, LAST), None)),
    ("note 7, deadline 15.500", Turn::Note(7, (5, 500), 10)),
    ("before the deadline", Turn::Due((15, 499), None)),
    ("at the deadline", Turn::Due((15, 500), None)),
    ("behind the deadline", Turn::Due((15, 501), Some(7))),
    ("once only", Turn::Due((99, 0), None)),
    ("note 1, deadline 15", Turn::Note(1, (5, 0), 10)),
    ("later, deadline 18", Turn::Note(1, (8, 0), 10)),
    ("behind the old deadline", Turn::Due((16, 0), None)),
    ("earlier, deadline 12", Turn::Note(1, (2, 0), 10)),
    ("the same again", Turn::Note(1, (2, 0), 10)),
    ("behind the earlier one", Turn::Due((12, 1), Some(1))),
    ("no deadline was left", Turn::Due((99, 0), None)),
    ("note 2, deadline 1", Turn::Note(2, (0, 0), 1)),
    ("forget 2", Turn::Forget(2)),
    ("forget 2, which isn't there", Turn::Forget(2)),
    ("2 is forgotten", Turn::Due((99, 0), None)),
    ("note 9, deadline 5", Turn::Note(9, (1, 0), 4)),
    ("note 3, deadline 5", Turn::Note(3, (2, 0), 3)),
    ("note 5, deadline 5", Turn::Note(5, (5, 0), 0)),
    ("note 8, deadline 4", Turn::Note(8, (4, 0), 0)),
    (
        "the least deadline before the least name",
        Turn::Due((6, 0), Some(8)),
    ),
    (
        "of equal deadlines the least name",
        Turn::Due((6, 0), Some(3)),
    ),
    ("the next name", Turn::Due((6, 0), Some(5))),
    ("the greatest name", Turn::Due((6, 0), Some(9))),
    ("none is left", Turn::Due((6, 0), None)),
    ("note 1, deadline 30", Turn::Note(1, (10, 0), 20)),
    ("note 2, deadline 25", Turn::Note(2, (20, 0), 5)),
    ("note 3, deadline 25.001", Turn::Note(3, (5, 1), 20)),
    ("2 alone is idle", Turn::Due((25, 1), Some(2))),
    ("3 isn't yet", Turn::Due((25, 1), None)),
    ("3 is", Turn::Due((40, 0), Some(3))),
    ("and 1", Turn::Due((40, 0), Some(1))),
    ("note 4 for good", Turn::Note(4, (LAST, 1), LAST)),
    ("4 is never idle", Turn::Due((LAST, LAST), None)),
];

// Whether a turn answers as it should.
fn holds(book: &mut IdleBook, turn: Turn) -> bool {
    match turn {
        Turn::Note(name, last, limit) => book.note(name, moment(last), limit) == Ok(()),
        Turn::Forget(name) => {
            book.forget(name);
            true
        }
        Turn::Due(now, wanted) => book.due(moment(now)) == wanted,
    }
}

#[test]
fn a_book_over_many_turns(rt: HostRuntime) {
    let mut book = IdleBook::new(rt.alloc());
    for &(name, turn) in TURNS {
        assert!(rt; holds(&mut book, turn), "{name}");
    }
}
