//! What declared tables say of operations and of function types.
ghost use Rattle.std.specs.Prelude.{◌≡◌};
ghost use Rattle.eff.specs.Tables.{Tables, argument as argument_type, gives as given_type};

/// Whatever knows the tables of a recipe. Types go by number, since `tables` may be any, whose types need not be ground.
pub trait Signatures {
    /// The tables.
    ghost tables: { Self → Tables };

    /// The type that operation `op` of the effect gives.
    fn gives(&self, effect: u32, op: u8) -> u8
        ensures { result ≡ given_type (tables self.now) effect op };

    /// The argument type of the function type.
    fn argument(&self, function: u32) -> u8
        ensures { result ≡ argument_type (tables self.now) function };
}
