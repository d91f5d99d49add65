//! Reading on: what comes from a source goes through a reader.

ghost use Rattle.std.specs.Prelude.{◌≡◌, ◌+◌, ◌<◌, ◌≤◌, ℕ, List, [], length, min, OnOk, OnErr};
ghost use Rattle.std.specs.Bool.{OnTrue};
ghost use Rattle.mos_bytes.specs.Causes.{HasCause};
ghost use Rattle.pcapng_source.specs.Outlooks.{Gives, MeetsOrFails, StepEnds, StepFalls, StepFits, StepGives, faults_with, outlook};
ghost use Rattle.pcapng_source.specs.Reading.{CanRead, IsBare, IsSteady, MayGive, MaySkip, Wants, met_at, weight_of};
ghost use Rattle.pcapng_source.specs.Turns.{Going, Leaves, Passes, Reads};

use crate::border::BORDER;
use crate::reader::{Next, Reader};
use mos_bytes::{Failed, Source};

// How many bytes are skipped at once.
const SKIPPED: usize = 512;

// How many bytes are held at once: at most the head of a block.
const HELD: usize = 28;

// Gives up to so many of the next bytes as they are.
pub(crate) fn give<S: Source>(
    source: &mut S,
    reader: &mut Reader,
    buf: &mut [u8],
) -> Result<usize, Failed>
    requires { MayGive reader.old (length buf.old) }
    ensures { Reads S.Source source.old source.new reader.old reader.new result buf.new }
{
    let count = source.read(buf)?;
    reader.gave(count);
    Ok(count)
}

// Skips up to so many of the next bytes.
fn skip<S: Source>(
    source: &mut S,
    reader: &mut Reader,
    most: usize,
) -> Result<Option<usize>, Failed>
    requires { MaySkip reader.old most }
    ensures { Passes S.Source source.old source.new reader.old reader.new result }
{
    let mut bytes = [0; SKIPPED];
    let count = source.read(&mut bytes[..SKIPPED.min(most)])?;
    if count == 0 {
        return Ok(Some(0));
    }
    reader.skip(count);
    Ok(None)
}

// Holds up to so many of the next bytes.
fn hold<S: Source>(
    source: &mut S,
    reader: &mut Reader,
    most: usize,
) -> Result<Option<usize>, Failed>
    requires { Wants reader.old most }
    ensures { Passes S.Source source.old source.new reader.old reader.new result }
{
    let mut bytes = [0; HELD];
    let most = most.min(HELD);
    let count = source.read(&mut bytes[..most])?;
    if count == 0 {
        return Ok(if reader.end() { None } else { Some(0) });
    }
    reader.keep(&bytes[..count]);
    Ok(None)
}

// One step of a read, which asks the source at most once. The answer is that of the read, or nothing where it takes a
// further step.
fn step<S: Source>(
    source: &mut S,
    reader: &mut Reader,
    buf: &mut [u8],
) -> Result<Option<usize>, Failed>
    requires { CanRead reader.old buf.old }
    ensures gives { StepGives (outlook reader.old (S.left source.old))
        (outlook reader.new (S.left source.new)) result buf.new }
    ensures room { StepFits result buf.new }
    ensures ends { StepEnds reader.new (S.left source.new) result (S.ended source.new) }
    ensures falls { StepFalls reader.old reader.new result }
    ensures cause { HasCause (faults_with reader.old (S.faults source.old))
        (faults_with reader.new (S.faults source.new)) result }
    ensures met { OnOk result (met_at reader.new.stage ≡ met_at reader.old.stage) }
    ensures failed { OnErr result (MeetsOrFails (met_at reader.old.stage) (met_at reader.new.stage)
        (S.faults source.old) (S.faults source.new)) }
    ensures leaves { Leaves S.Source source.old source.new reader.new }
{
    reader.take();
    if reader.made() > 0 {
        return Ok(Some(reader.give(buf)));
    }
    match reader.next(buf.len()) {
        Next::Give(most) => Ok(Some(give(source, reader, &mut buf[..most])?)),
        Next::Skip(most) => skip(source, reader, most),
        Next::Hold(most) => hold(source, reader, most),
        Next::Refuse => {
            reader.meet();
            Err(Failed)
        }
    }
}

// Reads on until some bytes are given, or none comes any more.
#[inline(never)]
pub(crate) fn read_on<S: Source>(
    source: &mut S,
    reader: &mut Reader,
    buf: &mut [u8],
) -> Result<usize, Failed>
    requires { CanRead reader.old buf.old }
    ensures { Reads S.Source source.old source.new reader.old reader.new result buf.new }
{
    loop {
        if let Some(count) = step(source, reader, buf)? {
            return Ok(count);
        }
    }
}

// Goes on by bytes that are at hand alone, and answers whether there may be more to do. A fault that is met here is
// counted and not told: the next read asks again.
fn step_ahead<S: Source>(source: &mut S, reader: &mut Reader) -> bool
    requires steady { IsSteady reader.old }
    ensures going { Going S.Source source.old source.new reader.old reader.new }
    ensures falls { OnTrue result (weight_of reader.new < weight_of reader.old) }
{
    reader.take();
    if reader.made() > 0 || source.count_at_hand() == 0 {
        return false;
    }
    match reader.next(1) {
        Next::Skip(most) => skip(source, reader, most) == Ok(None),
        Next::Hold(most) => hold(source, reader, most) == Ok(None),
        Next::Give(_) | Next::Refuse => false,
    }
}

// Goes from the data of a packet into the next block at once, where its head is at hand.
fn cross<S: Source>(source: &mut S, reader: &mut Reader)
    requires { IsBare reader.old }
    ensures gives { Gives (outlook reader.old (S.left source.old)) (outlook reader.new (S.left source.new)) [] }
    ensures later { faults_with reader.old (S.faults source.old) ≤ faults_with reader.new (S.faults source.new) }
    ensures met { met_at reader.new.stage ≡ met_at reader.old.stage }
    ensures leaves { Leaves S.Source source.old source.new reader.new }
{
    let Some(border) = reader.border(source.at_hand()) else {
        return;
    };
    let mut bytes = [0; BORDER];
    let Ok(count) = source.read(&mut bytes[..border]) else {
        return;
    };
    reader.cross(&bytes[..count]);
}

// Goes on by bytes that are at hand, until bytes are made or stand next in the file: so that these can be shown.
#[inline(never)]
pub(crate) fn look_ahead<S: Source>(source: &mut S, reader: &mut Reader)
    requires { IsBare reader.old }
    ensures { Going S.Source source.old source.new reader.old reader.new }
{
    cross(source, reader);
    while step_ahead(source, reader) {}
}
