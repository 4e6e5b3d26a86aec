//! What is known of the commands.
ghost use Rattle.mr_tool.specs.PlanForms.{FormsAgree};

/// A plan by a configuration's file and one by words say the same of the same migration.
pub fn forms_of_a_plan_agree()
    ensures { FormsAgree }
{}
