//! What holds of every run of a log, and of every line.
ghost use Rattle.std.specs.Prelude.{◌≡◌, ◌+◌, ◌^◌, ◌<◌, ◌≤◌, ℕ, List, length, Option};
ghost use Rattle.mr_log.specs.Kinds.{most_kinds};
ghost use Rattle.mr_log.specs.Laws.{AreApart};
ghost use Rattle.mr_log.specs.Lines.{IsLine};
ghost use Rattle.mr_log.specs.Log.{new_log};
ghost use Rattle.mr_log.specs.Runs.{Step, IsRun, told_in, noted_of, lines_of, more_of, waiting_of};
ghost use Rattle.mr_log.specs.Waiting.{LogView, IsLog, pause};
ghost use Rattle.mr_log.specs.declared.kind.Kind.{Kind};
ghost use Rattle.mr_log.specs.declared.line.Service.{Service};
ghost use Rattle.mr_log.specs.declared.log.Said.{Said};

use crate::kind::KINDS;
use crate::log::PAUSE;

/// The public limits are those of the definitions.
pub fn limits()
    ensures kinds { KINDS ≡ most_kinds }
    ensures pause { PAUSE ≡ pause }
{}

/// Of each kind, what was noted is what was said in lines, what these lines counted beside that, and what still waits.
pub fn nothing_is_lost()
    ensures { (kind : Kind) (steps : List Step) (log : LogView) → IsRun new_log steps log → length steps < 2 ^ 64
        → noted_of kind steps ≡ lines_of kind (told_in steps) + more_of kind (told_in steps) + waiting_of kind log.waiting }
{}

/// Between two lines of a kind there is always a pause.
pub fn lines_are_apart()
    ensures { (steps : List Step) (log : LogView) → IsRun new_log steps log → AreApart (told_in steps) }
{}

/// At most one line of each kind waits, and so no more lines than there are kinds.
pub fn few_wait()
    ensures one_each { (steps : List Step) (log : LogView) → IsRun new_log steps log → IsLog log }
    ensures few { (steps : List Step) (log : LogView) → IsRun new_log steps log → length log.waiting ≤ most_kinds }
{}

/// There is one text of a line, whenever it is said.
pub fn lines_are_determined()
    ensures { (service : Service) (at : Option ℕ) (said : Said) (line other : List ℕ)
        → IsLine service at said line → IsLine service at said other → line ≡ other }
{}
