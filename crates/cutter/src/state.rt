//! The state of a cutter.

/// Where the carriage stands, and how deep each position is, in motor steps.
#[derive(Clone, Copy, Debug)]
pub struct State {
    pub carriage: u8,
    pub depths: [u16; 16],
}
