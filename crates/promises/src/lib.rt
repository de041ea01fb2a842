// What is promised of the library's calls, stated in specs/ and proved in proofs/. The code is the calls once more, on a table that a start and
// later steps made: whatever the arguments are, they leave such a table. So what the program's types can hold is what `Takes` asks for.
// Kept: `NewAsked` stands in each contract: of a type that held the loan each method would have to say that its loan is the same one (`ghost_name`), a clause for a clause.
#![tactic(auto, using(crate::proofs::Demands::made_call, crate::proofs::Demands::made_ask, crate::proofs::Demands::made_forward, crate::proofs::Demands::made_back, crate::proofs::Typed::settings_typed))]

ghost use Rattle.std.specs.Prelude.{◌≡◌, true};
ghost use Rattle.control.specs.Accepted.{accepted};
ghost use Rattle.promises.specs.Asked.{OldAsked, NewAsked};

use asked::said::AskRefusal;
use control::answer::Answer;
use frame::block::SystemId;
use frame::wire::TensOfMicroseconds;
use machine::states::Line;
use settings::Settings;

// Any memory.
pub fn start(
    table: &mut [u8],
    count: u32,
    system: SystemId,
    delay: TensOfMicroseconds,
    settings: Settings,
) -> Answer
    ensures { accepted result ≡ true → NewAsked table.new }
{
    asked::start(table, count, system, delay, settings)
}

pub fn receive(table: &mut [u8], n: u32, frame: &[u8], out: &mut [u8]) -> Answer
    requires { NewAsked table.old }
    ensures { NewAsked table.new }
{
    asked::receive(table, n, frame, out)
}

pub fn tick(table: &mut [u8]) -> Answer
    requires { NewAsked table.old }
    ensures { NewAsked table.new }
{
    asked::tick(table)
}

pub fn line(table: &mut [u8], n: u32, line: Line) -> Answer
    requires { NewAsked table.old }
    ensures { NewAsked table.new }
{
    asked::line(table, n, line)
}

pub fn configure(table: &mut [u8], n: u32, settings: Settings) -> Answer
    requires { NewAsked table.old }
    ensures { NewAsked table.new }
{
    asked::configure(table, n, settings)
}

pub fn fetch(table: &mut [u8], n: u32, out: &mut [u8]) -> Answer
    requires { NewAsked table.old }
    ensures { NewAsked table.new }
{
    asked::fetch(table, n, out)
}

pub fn ask(table: &mut [u8], n: u32, wait: u32, out: &mut [u8]) -> Result<(), AskRefusal>
    requires { NewAsked table.old }
    ensures { NewAsked table.new }
{
    asked::ask(table, n, wait, out)
}

// A table of the old form that a run made, and any memory.
pub fn forward(old: &[u8], new: &mut [u8]) -> Answer
    requires { OldAsked old.now }
    ensures { accepted result ≡ true → NewAsked new.new }
{
    asked::forward(old, new)
}

pub fn back(new: &[u8], old: &mut [u8]) -> Answer
    requires { NewAsked new.now }
    ensures { accepted result ≡ true → OldAsked old.new }
{
    asked::back(new, old)
}
