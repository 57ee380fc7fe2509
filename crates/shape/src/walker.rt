//! A walker over the lent rows of a sheet's parts.
ghost use Rattle.std.specs.Prelude.{◌+◌, ◌^◌, ◌<◌, length};

use sheet::PartRow;

/// The rows that are still to be taken, the line of the next, and the first line so far whose part stands under too many names.
#[derive(Drop)]
pub(crate) struct Walker<'a> {
    pub(crate) rest: &'a [PartRow],
    pub(crate) line: u64,
    pub(crate) crowd: Option<u64>,
    ghost short: { line + length rest.now < 2 ^ 33 },
}
