//! What is read of a run.
ghost use Rattle.std.specs.Prelude.{◌≡◌, take, Some};
ghost use Rattle.eff.specs.Sorts.{comp};
ghost use Rattle.eff.specs.Syntax.{Term, flatten, size};
ghost use Rattle.machine.specs.Views.{report, computation};
ghost use Rattle.runs.specs.Viewed.{viewed};

use crate::run::Run;
use eff::part::Part;
use machine::Report;

impl Run<'_> {
    /// The report.
    pub fn read(&self) -> Report
        ensures { result ≡ report (viewed self.now) }
    {
        self.report
    }

    /// The first slab. It opens with the parts of the computation, if there is one.
    pub fn first(&self) -> &[Part]
        ensures slab { result.now ≡ self.now.first.now }
        ensures opens { (c : Term comp) → computation (viewed self.now) ≡ Some c → take (size c) result.now ≡ flatten c }
    {
        self.first
    }

    /// The second slab.
    pub fn second(&self) -> &[Part]
        ensures { result.now ≡ self.now.second.now }
    {
        self.second
    }
}
