//! The key of the connection between two endpoints.

ghost use Rattle.std.specs.Prelude.{◌≡◌};
ghost use Rattle.flow_table.specs.Key.{key_between as key_of_both};

use flow_table::{Endpoint, Key};

/// The key of the connection between two endpoints, whichever is named first.
pub fn key_between(a: Endpoint, b: Endpoint) -> Key
    ensures key { result ≡ key_of_both a b }
    ensures either { result ≡ key_of_both b a }
{
    Key::between(a, b)
}
