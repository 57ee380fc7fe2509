//! The wrapper that a fault of any layer stands in.
ghost use Rattle.std.specs.Prelude.{◌≡◌};

use crate::fault::Fault;

/// A fault with the line of the sheet that it names. Line 0 where it names none, and no `Option`: a refusal without a line is printed with line 0.
#[derive(Clone, Copy, Debug, PartialEq, Eq)]
pub struct At<F> {
    pub line: u64,
    pub fault: F,
}

// A `From` for each pair of layers moves a fault up: one for any two would be no plainer, as it would also have to say that it is not of one to itself.
impl<F: Copy> At<F> {
    // The same line, with what is made of the fault.
    pub(crate) fn map<G, M: FnOnce(F) -> G>(self, made: M) -> At<G>
        requires { M.pre made self.fault }
        ensures line { result.line ≡ self.line }
        ensures fault { M.post made self.fault result.fault }
    {
        At {
            line: self.line,
            fault: made(self.fault),
        }
    }
}

impl<F: Fault> At<F> {
    /// The fault's number, and its line.
    pub fn numbers(self) -> (u8, u64)
        ensures number { result.0 ≡ F.Fault.number_of self.fault }
        ensures line { result.1 ≡ self.line }
    {
        (self.fault.number(), self.line)
    }
}
