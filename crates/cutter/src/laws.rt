//! The cutter's law, and the cutter under two rations.
ghost use Rattle.std.specs.Prelude.{◌≡◌, []};
ghost use Rattle.host.specs.Rationing.{rationed};
ghost use Rattle.cutter.specs.Cutting.{fresh, cutting, cutter_knows};
ghost use Rattle.cutter.specs.Table.{CutterLaw};

use crate::cutter::Cutter;
use eff::question::{Question, Reply};
use host::host::Host;
use host::ration::Ration;

/// The cutter answers what its table says, and no question makes a position less deep.
pub fn cutter_law_stands()
    ensures { CutterLaw }
{}

/// The reply of a fresh cutter under a ration of `inner` questions under one of `outer`.
pub fn ask_rationed(outer: u16, inner: u16, question: Question) -> Reply
    ensures { result ≡ rationed (rationed (cutting fresh) cutter_knows inner) cutter_knows outer [] question }
{
    let mut host = Ration::new(Ration::new(Cutter::fresh(), inner), outer);
    host.ask(question)
}
