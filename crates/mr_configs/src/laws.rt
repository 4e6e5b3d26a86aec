//! What is known of configurations.
ghost use Rattle.std.specs.Prelude.{◌≡◌, Ok};
ghost use Rattle.serde_json.specs.Data.{Data};
ghost use Rattle.mr_proxy.specs.Sheets.{HaveAsManyHops};
ghost use Rattle.mr_configs.specs.Config.{ConfigView, config_of};

/// Each configuration has one pool more than hops.
pub fn configurations_match()
    ensures { (value : Data) (config : ConfigView) → config_of value ≡ Ok config
        → HaveAsManyHops config.routing config.schedule }
{}
