//! The window scale among the options of a TCP header.

ghost use Rattle.std.specs.Prelude.{◌≡◌, ◌+◌, ◌<◌, ◌≤◌, length, drop, true, false, IsNone, IfSome};
ghost use Rattle.packet_views.specs.Options.{option_length, has_bad_length, scale_after};
ghost use Rattle.packet_views.specs.View.{IsScale};

/// The kind of an option that ends the options (RFC 9293, section 3.1).
const END_OF_LIST: u8 = 0;

/// The kind of an option of one byte that fills a gap (RFC 9293, section 3.1).
const NO_OPERATION: u8 = 1;

/// The kind of the window scale option, whose length is 3 (RFC 7323, section 2.2).
const WINDOW_SCALE: u8 = 3;

/// The greatest shift that counts: a greater one is read as this (RFC 7323, section 2.3).
const MAX_SHIFT: u8 = 14;

/// The shift of the first window scale option among these: the bytes between the fixed part of a TCP header and the payload.
/// The walk over them ends at kind 0 and at an option whose length is below 2 or doesn't fit.
pub(crate) fn scale_in(options: &[u8]) -> Option<u8>
    ensures { IsScale (scale_after 0 options.now) result }
{
    let mut at = 0;
    while at < options.len() {
        match options[at] {
            END_OF_LIST => return None,
            NO_OPERATION => at += 1,
            kind => {
                let len = option_length(options, at)?;
                if kind == WINDOW_SCALE && len == 3 {
                    return Some(options[at + 2].min(MAX_SHIFT));
                }
                at += len;
            }
        }
    }
    None
}

// The length of the option at a place, if it is at least 2 and the option fits.
fn option_length(options: &[u8], at: usize) -> Option<usize>
    requires { at < length options.now }
    ensures none { IsNone result → has_bad_length (drop (at + 1) options.now) ≡ true }
    ensures some { IfSome result (λ len. has_bad_length (drop (at + 1) options.now) ≡ false) }
    ensures len { IfSome result (λ len. len ≡ option_length (drop (at + 1) options.now)) }
    ensures low { IfSome result (λ len. 2 ≤ len) }
    ensures high { IfSome result (λ len. at + len ≤ length options.now) }
{
    if options.len() - at < 2 {
        return None;
    }
    let len = usize::from(options[at + 1]);
    if len < 2 || len > options.len() - at {
        None
    } else {
        Some(len)
    }
}
