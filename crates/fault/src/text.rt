//! Faults of a sheet's text.
ghost use Rattle.std.specs.Prelude.{◌≡◌};
ghost use Rattle.fault.specs.Numbers.{text_number, text_layer};

use crate::fault::Fault;
use crate::layer::Layer;

/// Why the text of a sheet is refused.
#[derive(Clone, Copy, Debug, PartialEq, Eq)]
pub enum TextFault {
    /// The bytes are not in form.
    Form,
    /// A table has more rows than there is room for, or there is no part.
    Size,
    /// A row's number is not the next.
    Turn,
}

impl Fault for TextFault {
    ghost number_of = { text_number };

    ghost layer_of = { text_layer };

    fn number(self) -> u8 {
        match self {
            TextFault::Form => 1,
            TextFault::Size => 2,
            TextFault::Turn => 3,
        }
    }

    fn layer(self) -> Layer {
        Layer::Text
    }
}
