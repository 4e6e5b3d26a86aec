//! What is known of setups and of scripts.
ghost use Rattle.std.specs.Prelude.{◌≡◌, ℕ, List, Ok, Err, false};
ghost use Rattle.serde_json.specs.Data.{Data};
ghost use Rattle.serde_json.specs.Written.{has_float};
ghost use Rattle.mr_configs.specs.Config.{IsJson};
ghost use Rattle.mr_configs.specs.declared.error.PlanError.{PlanError};
ghost use Rattle.mr_world.specs.Setup.{SetupView, CanBeMade};
ghost use Rattle.mr_scripts.specs.Script.{ScriptParts, script_of};
ghost use Rattle.mr_scripts.specs.Setups.{checked_setup};

/// A setup whose values are all in order is refused only where no fleet can be made of it.
pub fn refused_setups_have_no_fleet()
    ensures { (setup : SetupView) (e : PlanError) → checked_setup setup ≡ Err e → ¬ CanBeMade setup }
{}

/// Where a number stands in a JSON text that isn't whole, the text is no script: its kind alone has it refused.
pub fn scripts_have_no_float()
    ensures { (bytes : List ℕ) (value : Data) (parts : ScriptParts)
        → IsJson bytes value → script_of value ≡ Ok parts → has_float value ≡ false }
{}
