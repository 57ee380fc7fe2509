//! How long it takes to judge a long sheet.
use crate::sheets::cuts;
use std::io;
use std::time::{Duration, Instant};

/// How long it takes to judge the sheet of cuts so many times; nothing where it does not pass.
pub(crate) fn measure<J: FnMut(&[u8]) -> bool>(
    rt: &HostRuntime,
    times: u32,
    mut passes: J,
) -> io::Result<Option<Duration>>
    requires { J.IsAlwaysCallable passes }
{
    let sheet = cuts(rt.alloc())?;
    let start = Instant::now(rt)?;
    for _ in 0..times {
        if !passes(sheet.as_bytes()) {
            return Ok(None);
        }
    }
    Ok(Some(start.elapsed(rt)?))
}
