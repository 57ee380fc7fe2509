//! How fast things go by.
ghost use Rattle.std.specs.Prelude.{◌≡◌, ◌*◌, ◌/◌, max};
ghost use Rattle.std.specs.Duration.{as_nanos};

use std::time::Duration;

/// How many go by in a second where so many did in this time, which counts as a nanosecond at least.
pub(crate) fn rate(count: u64, span: Duration) -> u128
    ensures { result ≡ (count * 1000000000) / max (as_nanos span) 1 }
{
    count as u128 * 1_000_000_000 / span.as_nanos().max(1)
}
