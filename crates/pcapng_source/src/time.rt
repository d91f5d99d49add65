//! Times of packets.

ghost use Rattle.std.specs.Prelude.{◌≡◌, ◌+◌, ◌^◌, ◌*◌, ◌/◌, ◌%◌, ◌<◌};
ghost use Rattle.pcapng_source.specs.Packets.{micros_of};

use crate::section::Resolution;

// How many microseconds a second has.
const SECOND: u64 = 1_000_000;

// The largest power of ten that a number of 128 bits holds. A time has fewer microseconds.
const LARGEST_POWER: u8 = 38;

// In how many bits a number of 128 bits may be shifted at most.
const LARGEST_SHIFT: u8 = 127;

// A time in microseconds, rounded down, where a second has ten units to so much.
fn micros_in_tens(exponent: u8, time: u64) -> u128
    ensures { result ≡ time * 1000000 / 10 ^ exponent }
{
    if exponent > LARGEST_POWER {
        return 0;
    }
    u128::from(time) * 1_000_000 / 10_u128.pow(u32::from(exponent))
}

// The same where it has two units to so much.
fn micros_in_twos(exponent: u8, time: u64) -> u128
    ensures { result ≡ time * 1000000 / 2 ^ exponent }
{
    if exponent > LARGEST_SHIFT {
        return 0;
    }
    (u128::from(time) * 1_000_000) >> exponent
}

// A time of this resolution in microseconds, rounded down.
fn micros_in(resolution: Resolution, time: u64) -> u128
    ensures { result ≡ micros_of resolution time }
{
    match resolution {
        Resolution::PowerOfTen(exponent) => micros_in_tens(exponent, time),
        Resolution::PowerOfTwo(exponent) => micros_in_twos(exponent, time),
    }
}

// A time of this resolution as a record tells it: its seconds modulo 2^32, and its microseconds.
#[inline(always)]
pub(crate) fn seconds_and_micros(resolution: Resolution, time: u64) -> (u32, u32)
    ensures seconds { result.0 ≡ micros_of resolution time / 1000000 % 2 ^ 32 }
    ensures micros { result.1 ≡ micros_of resolution time % 1000000 }
{
    // Most interfaces tell microseconds, and these need no long division.
    if let Resolution::PowerOfTen(6) = resolution {
        return ((time / SECOND % (1 << 32)) as u32, (time % SECOND) as u32);
    }
    any_seconds_and_micros(resolution, time)
}

// The same at any resolution, by long division.
#[inline(never)]
fn any_seconds_and_micros(resolution: Resolution, time: u64) -> (u32, u32)
    ensures seconds { result.0 ≡ micros_of resolution time / 1000000 % 2 ^ 32 }
    ensures micros { result.1 ≡ micros_of resolution time % 1000000 }
{
    let micros = micros_in(resolution, time);
    let second = u128::from(SECOND);
    (
        (micros / second % (1 << 32)) as u32,
        (micros % second) as u32,
    )
}
