//! A reader over the lent bytes of a sheet.
ghost use Rattle.std.specs.Prelude.{◌+◌, ◌^◌, ◌<◌, length};

/// The bytes of a sheet that are still to be read, and the line that the next stands in.
#[derive(Drop)]
pub(crate) struct Reader<'a> {
    pub(crate) rest: &'a [u8],
    pub(crate) line: u64,
    ghost short: { line + length rest.now < 2 ^ 64 },
}
