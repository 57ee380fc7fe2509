//! What every fault has.
ghost use Rattle.std.specs.Prelude.{◌≡◌, ℕ};
ghost use Rattle.fault.specs.declared.layer.Layer.{Layer as LayerOf};

use crate::layer::Layer;

/// A fault: its number, and the layer that found it.
pub trait Fault: Copy {
    ghost number_of: { Self → ℕ };

    ghost layer_of: { Self → LayerOf };

    fn number(self) -> u8
        ensures { result ≡ number_of self };

    fn layer(self) -> Layer
        ensures { result ≡ layer_of self };
}
