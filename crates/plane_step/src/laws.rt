// Each body calls the laws that it stands on, and the contract is the law.
ghost use Rattle.std.specs.Prelude.{◌≡◌, ℕ, List, Option, Bool};
ghost use Rattle.uci_text.specs.declared.line.Line.{Line};
ghost use Rattle.script_lines.specs.declared.script_line.ScriptLine.{ScriptLine};
ghost use Rattle.step_net.specs.NetLine.{NetLine};
ghost use Rattle.plane_step.specs.Ground.{Ground};
ghost use Rattle.plane_step.specs.Means.{Means};
ghost use Rattle.bus_lines.specs.World.{World};
ghost use Rattle.bus_lines.specs.Did.{Did};
ghost use Rattle.plane_step.specs.Does.{Does};
ghost use Rattle.plane_step.specs.Moved.{Luck, Moved, Folds};
ghost use Rattle.plane_step.specs.Plain.{IsPlain, ArePlain};

use net_addr::{one_address, one_cidr};
use uci_tree::{no_package_with_fault, one_package};

/// For a start a line means one thing.
pub fn one_meaning()
    ensures { (start : Ground) (number : ℕ) (line : Option ScriptLine) (act other : NetLine)
        → Means start number line act → Means start number line other → act ≡ other }
{
    one_address();
    one_cidr();
    one_package();
    no_package_with_fault();
}

/// A line that no caller asks does one thing in a world, where it has its luck.
pub fn one_line()
    ensures { (world : World) (number : ℕ) (line : Option ScriptLine) (words : List ℕ)
        (events : List Bool) (did other : Did) → IsPlain line
        → Does world number line words events did → Does world number line words events other
        → did ≡ other }
{
    one_meaning();
}

/// A script of such lines comes to one thing, where each line has its luck.
pub fn one_fold()
    ensures { (start : World) (lines : List Line) (lucks : List Luck) (end other : Moved)
        → ArePlain lines
        → Folds start lines lucks end → Folds start lines lucks other → end ≡ other }
{
    one_line();
}
