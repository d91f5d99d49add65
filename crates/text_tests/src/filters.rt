//! Filters as authors write them: refused, printed, and asked of facts.

use filter_lang::{Atom, Expr, FilterError, Join, Op, Term, eval, parse, print};
use native_filters::{
    Facts, Native, NativeBook, has_differing_bytes, has_system_port, is_ending, is_keep_alive,
    is_opening, is_private_traffic,
};
use std::alloc::{AllocError, Global};
use std::test::Fail;

const REFUSALS: &[(&str, &str, FilterError)] = &[
    ("no text", "", FilterError::Syntax(0)),
    ("no right side", "sport = ", FilterError::Syntax(8)),
    ("no fact", "foo = 1", FilterError::UnknownName(0)),
    ("no native filter", "native 6", FilterError::UnknownName(7)),
    ("a dot behind a number", "native 7.", FilterError::Syntax(7)),
    (
        "a number of 65 bits",
        "18446744073709551616 = 0",
        FilterError::BigNumber(0),
    ),
    (
        "33 negations",
        "!!!!!!!!!!!!!!!!!!!!!!!!!!!!!!!!!true",
        FilterError::TooDeep(32),
    ),
    ("two numbers", "len = 1 2", FilterError::Syntax(8)),
    (
        "a fourth part over 255",
        "1.2.3.256 = 1",
        FilterError::Syntax(8),
    ),
    ("five parts", "1.2.3.4.5 = 1", FilterError::Syntax(7)),
    (
        "a first part over 255",
        "256.1.1.1 = 1",
        FilterError::Syntax(0),
    ),
    ("a part and a dot", "5. = 1", FilterError::Syntax(0)),
    ("no hexadecimal digits", "0x = 1", FilterError::Syntax(1)),
    (
        "a dot behind hexadecimal digits",
        "0x1. = 1",
        FilterError::Syntax(3),
    ),
];

#[test]
fn refusals_at_their_offsets(rt: HostRuntime) {
    for &(name, text, refusal) in REFUSALS {
        assert!(rt; parse(rt.alloc(), text).err() == Some(refusal), "{name}");
    }
}

const PRINTED: &[(&str, &str, &str)] = &[
    (
        "both joins",
        "len>0||dir=1&&flags has 2",
        "len > 0 || dir = 1 && flags has 2",
    ),
    ("a negated comparison", "!len = 0x1F", "!(len = 31)"),
    (
        "both joins in parentheses",
        "(true && false) && !(native 5||src=10.0.0.1)",
        "(true && false) && !(native 5 || src = 167772161)",
    ),
    (
        "blanks and parentheses round the whole",
        "\t(( len=1 ))  ",
        "len = 1",
    ),
    ("negations of a word", "!!(!true)", "!!!true"),
    ("negations of a comparison", "!( !(nth!=2))", "!!(nth != 2)"),
    (
        "parentheses round words",
        "!(native 3)&&!(false)",
        "!native 3 && !false",
    ),
    ("a negated and", "!(true&&false)", "!(true && false)"),
    (
        "an or in an and",
        "(len=1||dir=0)&&(true)",
        "(len = 1 || dir = 0) && true",
    ),
    (
        "an and in an or",
        "(len=1&&dir=0)||false",
        "len = 1 && dir = 0 || false",
    ),
    (
        "an or in an or",
        "(len=1||dir=0)||false",
        "(len = 1 || dir = 0) || false",
    ),
    (
        "joins to the right",
        "true||(false||(true&&(false&&true)))",
        "true || (false || true && (false && true))",
    ),
    ("a sum", "seq-ack+1%2>=win", "seq - ack + 1 % 2 >= win"),
    (
        "a hexadecimal number",
        "ttl<0x40&&old!=new",
        "ttl < 64 && old != new",
    ),
    (
        "the greatest number",
        "18446744073709551615>next",
        "18446744073709551615 > next",
    ),
    (
        "the greatest address",
        "255.255.255.255<=dst",
        "4294967295 <= dst",
    ),
    (
        "the other facts",
        "sport=dport&&fresh=rexlen&&rexdiff=fault&&class=src",
        "sport = dport && fresh = rexlen && rexdiff = fault && class = src",
    ),
];

// Whether a filter is printed like this.
fn is_printed(alloc: Global, filter: &Expr, printed: &str) -> bool {
    match print(alloc, filter) {
        Ok(text) => text.as_str() == printed,
        Err(_) => false,
    }
}

fn copy_is_printed(alloc: Global, filter: &Expr, printed: &str) -> bool {
    match filter.copy(alloc) {
        Ok(copy) => is_printed(alloc, &copy, printed),
        Err(_) => false,
    }
}

// Whether a copy of the filter that a text is gets printed like this.
fn is_printed_anew(alloc: Global, text: &str, printed: &str) -> bool {
    match parse(alloc, text) {
        Ok(filter) => copy_is_printed(alloc, &filter, printed),
        Err(_) => false,
    }
}

#[test]
fn printed_once_more(rt: HostRuntime) {
    for &(name, text, printed) in PRINTED {
        assert!(rt; is_printed_anew(rt.alloc(), text, printed), "{name}");
    }
}

// Whether a filter is true of the facts, where the native filters are the plain functions.
fn is_true(filter: &Expr, facts: &Facts) -> bool {
    let natives = NativeBook::new(
        Native::new(0, is_opening),
        Native::new(1, has_system_port),
        Native::new(2, is_private_traffic),
        Native::new(3, is_keep_alive),
        Native::new(4, is_ending),
        Native::new(5, has_differing_bytes),
    );
    eval(filter, facts, &natives)
}

// Whether a text is a filter, and has this truth.
fn has_truth(alloc: Global, text: &str, facts: &Facts, truth: bool) -> bool {
    match parse(alloc, text) {
        Ok(filter) => is_true(&filter, facts) == truth,
        Err(_) => false,
    }
}

// The filter, the flags of a packet from 10.0.0.1 to 10.0.0.2, where the facts are those of one, and the truth.
const TRUTHS: &[(&str, &str, Option<u64>, bool)] = &[
    ("below zero", "len - 1 > 100", None, true),
    ("an address", "src = 10.0.0.1", Some(0x02), true),
    ("a SYN", "flags has 2 && !(flags has 16)", Some(0x02), true),
    (
        "a SYN with an ACK",
        "flags has 2 && !(flags has 16)",
        Some(0x12),
        false,
    ),
    (
        "sums from the left, and a remainder by zero",
        "7 - 2 - 1 = 4 && 7 % 0 = 0",
        None,
        true,
    ),
    ("an opening", "native 0", Some(0x02), true),
    ("no opening", "native 0", Some(0x12), false),
    (
        "three native filters",
        "native 1 && native 2 && !native 3",
        Some(0x02),
        true,
    ),
    (
        "two native filters",
        "native 4 || native 5",
        Some(0x12),
        false,
    ),
];

fn facts(packet: Option<u64>) -> Facts {
    match packet {
        Some(flags) => Facts {
            src: 0x0a00_0001,
            dst: 0x0a00_0002,
            flags,
            ..Facts::none()
        },
        None => Facts::none(),
    }
}

#[test]
fn true_of_the_facts(rt: HostRuntime) {
    for &(name, text, packet, truth) in TRUTHS {
        assert!(rt;
            has_truth(rt.alloc(), text, &facts(packet), truth),
            "{name}"
        );
    }
}

// Whether a term is `.. && 1 + len - 2 > .. && ..`.
fn has_the_sum(term: &Term) -> bool {
    let Term::And(chain) = term else {
        return false;
    };
    let Some(Term::Cmp(sum, Op::Gt, _)) = chain.as_slice().get(1) else {
        return false;
    };
    let steps = [(Join::Plus, Atom::Fact(10)), (Join::Minus, Atom::Number(2))];
    chain.as_slice().len() == 3
        && sum.first == Atom::Number(1)
        && sum.rest.as_slice() == steps.as_slice()
}

fn is_read_with_the_sum(alloc: Global, text: &str) -> bool {
    match parse(alloc, text) {
        Ok(filter) => has_the_sum(filter.term()),
        Err(_) => false,
    }
}

#[test]
fn terms_are_lists_of_their_members(rt: HostRuntime) {
    assert!(rt; is_read_with_the_sum(rt.alloc(), "native 1 && 1 + len - 2 > 0 && false"));
}

fn long_filter(alloc: Global) -> Result<String, AllocError> {
    let mut text = "true && ".repeat(alloc, 25_000)?;
    text.push_str("false")?;
    Ok(text)
}

#[test]
fn long_filters_are_read(rt: HostRuntime) -> Result<(), Fail> {
    let text = long_filter(rt.alloc())?;
    assert!(rt; has_truth(rt.alloc(), text.as_str(), &Facts::none(), false));
    Ok(())
}
