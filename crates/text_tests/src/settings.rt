//! The words after the program's name: rows of words, accepted and refused.

use applications::AppKind;
use std::alloc::Global;
use std::test::Fail;
use words::{Emit, Settings, WordsError, read_words, usage_text};

fn push_word(alloc: Global, words: &mut Vec<String>, word: &str) -> Result<(), Fail> {
    words.push(String::from_str(alloc, word)?)?;
    Ok(())
}

// The words of a line, between blanks.
fn words_of(alloc: Global, line: &str) -> Result<Vec<String>, Fail> {
    let mut words = Vec::new(alloc);
    if !line.is_empty() {
        for word in line.split(' ') {
            push_word(alloc, &mut words, word)?;
        }
    }
    Ok(words)
}

// The application, how many workers, the script, what is written, and how many connections are made.
type Choice = (AppKind, usize, Option<&'static str>, Emit, Option<u32>);

// What no words choose.
const PLAIN: Choice = (AppKind::Log, 1, None, Emit::Report, None);

const ACCEPTED: &[(&str, &str, Choice)] = &[
    ("no words", "", PLAIN),
    ("the log", "--app log", PLAIN),
    ("equals signs", "--app=log --workers=1 --emit=report", PLAIN),
    (
        "another order",
        "--emit report --script a --workers 1 --app log",
        (AppKind::Log, 1, Some("a"), Emit::Report, None),
    ),
    (
        "an equals sign in a name",
        "--script=x=1",
        (AppKind::Log, 1, Some("x=1"), Emit::Report, None),
    ),
    (
        "a name that begins with one",
        "--script==x",
        (AppKind::Log, 1, Some("=x"), Emit::Report, None),
    ),
    (
        "a script named as an application",
        "--script log --app log",
        (AppKind::Log, 1, Some("log"), Emit::Report, None),
    ),
    (
        "accounting",
        "--app acct",
        (AppKind::Acct, 1, None, Emit::Report, None),
    ),
    (
        "retransmissions",
        "--app=rexmit",
        (AppKind::Rexmit, 1, None, Emit::Report, None),
    ),
    (
        "the firewall, forwarding",
        "--emit forward --app firewall",
        (AppKind::Firewall, 1, None, Emit::Forward, None),
    ),
    (
        "a made capture",
        "--make 1",
        (AppKind::Log, 1, None, Emit::Summary, Some(1)),
    ),
    (
        "the largest made capture",
        "--make=100000 --app acct",
        (AppKind::Acct, 1, None, Emit::Summary, Some(100_000)),
    ),
    ("one worker", "--workers 1", PLAIN),
    (
        "two workers",
        "--workers=2",
        (AppKind::Log, 2, None, Emit::Report, None),
    ),
    (
        "16 workers",
        "--workers 16",
        (AppKind::Log, 16, None, Emit::Report, None),
    ),
];

fn is_choice(settings: &Settings, choice: Choice) -> bool {
    let (app, workers, script, emit, make) = choice;
    settings.app == app
        && settings.workers == workers
        && settings.script.as_ref().map(|name| name.as_str()) == script
        && settings.emit == emit
        && settings.make == make
}

// Whether the words of a line are accepted, and choose this.
fn chooses(alloc: Global, line: &str, choice: Choice) -> Result<bool, Fail> {
    let words = words_of(alloc, line)?;
    match read_words(alloc, words.as_slice()) {
        Ok(settings) => Ok(is_choice(&settings, choice)),
        Err(_) => Ok(false),
    }
}

#[test]
fn accepted(rt: HostRuntime) -> Result<(), Fail> {
    for &(name, line, choice) in ACCEPTED {
        assert!(rt; chooses(rt.alloc(), line, choice)?, "{name}");
    }
    Ok(())
}

const REFUSED: &[(&str, &str)] = &[
    ("a word", "extra"),
    ("two dashes", "--"),
    ("a short option", "-a"),
    ("a dash", "-"),
    ("empty words", " "),
    ("no application", "--app"),
    ("an unknown application", "--app tap"),
    ("an empty application", "--app="),
    ("an option twice", "--app log --app log"),
    ("no workers", "--workers 0"),
    ("a leading zero", "--workers 01"),
    ("a sign", "--workers +1"),
    ("17 workers", "--workers 17"),
    ("116 workers", "--workers 116"),
    ("workers twice", "--workers 1 --workers 1"),
    ("a number of 33 bits", "--workers 4294967297"),
    ("no name", "--script"),
    ("an empty name", "--script="),
    ("an empty word as a name", "--script "),
    ("a name that begins with a dash", "--script -x"),
    (
        "a name that begins with a dash, behind an equals sign",
        "--script=-x",
    ),
    ("a dash as a name", "--script -"),
    ("two dashes as a name", "--script --"),
    ("an option as a name", "--script --app=log"),
    ("a summary asked for", "--emit summary"),
    ("no connections", "--make 0"),
    ("too many connections", "--make 100001"),
    ("a report of a made capture", "--make 3 --emit report"),
    ("a made capture forwarded", "--emit forward --make 3"),
    ("an unknown option", "--x 1"),
    ("an unknown option with an equals sign", "--x=1"),
    ("an option without a name", "--=1"),
    ("a word behind an option", "--app log extra"),
    ("help", "--help"),
    ("help in short", "-h"),
    ("version", "--version"),
    ("the front of an option", "--ap log"),
    ("a capital letter", "--App log"),
];

fn is_refused(alloc: Global, line: &str) -> Result<bool, Fail> {
    let words = words_of(alloc, line)?;
    Ok(read_words(alloc, words.as_slice()).err() == Some(WordsError::Usage))
}

#[test]
fn refused(rt: HostRuntime) -> Result<(), Fail> {
    for &(name, line) in REFUSED {
        assert!(rt; is_refused(rt.alloc(), line)?, "{name}");
    }
    Ok(())
}

// 15 bytes with three blanks, so a name of 17 of them is no line of words.
const PART: &str = "name of 15 byte";

// What 17 parts and this text come to, as a name: it is kept, or the words `--script=NAME` are refused.
const NAMES: &[(&str, &str, Option<WordsError>)] = &[
    ("255 bytes", "", None),
    ("256 bytes", "x", Some(WordsError::Usage)),
];

// Whether reading these words keeps this name, or gives this error.
fn keeps(alloc: Global, words: &[String], name: &str, error: Option<WordsError>) -> bool {
    match read_words(alloc, words) {
        Ok(settings) => {
            error.is_none() && settings.script.as_ref().map(|name| name.as_str()) == Some(name)
        }
        Err(why) => error == Some(why),
    }
}

fn is_name(alloc: Global, rest: &str, error: Option<WordsError>) -> Result<bool, Fail> {
    let name = format!(in alloc; "{}{rest}", PART.repeat(alloc, 17)?)?;
    let mut words = Vec::new(alloc);
    words.push(format!(in alloc; "--script={name}")?)?;
    Ok(keeps(alloc, words.as_slice(), name.as_str(), error))
}

#[test]
fn names_have_at_most_255_bytes(rt: HostRuntime) -> Result<(), Fail> {
    for &(name, rest, error) in NAMES {
        assert!(rt; is_name(rt.alloc(), rest, error)?, "{name}");
    }
    Ok(())
}

const USAGE: &str =
    "mos: usage: mos [--app log|acct|rexmit|firewall] [--workers N] [--script NAME] \
    [--emit report|forward] [--make N]\n";

#[test]
fn usage_names_all_options(rt: HostRuntime) {
    assert!(rt; usage_text() == USAGE);
}
