//! What is proved of strategies and configurations by numbers. Each function does nothing and has a law for its contract; the laws are stated in
//! `specs/Forms.antt` and `specs/Configurations.antt`.
ghost use Rattle.mau_strat.specs.Configurations.{OneNumberWhereOneConfig, NumbersKeepConfigs};
ghost use Rattle.mau_strat.specs.Forms.{StrategyOfForm, OneNumberWhereOneStrategy, NumbersKeepStrategies};

/// Numbers of configurations are equal exactly where the configurations are.
pub fn one_number_where_one_config()
    ensures { OneNumberWhereOneConfig }
{}

/// A number keeps its configuration as more are interned.
pub fn numbers_keep_configs()
    ensures { NumbersKeepConfigs }
{}

/// The strategy of a number is that of its form, over those of the parts.
pub fn strategy_of_form()
    ensures { StrategyOfForm }
{}

/// Numbers of strategies are equal exactly where the strategies are.
pub fn one_number_where_one_strategy()
    ensures { OneNumberWhereOneStrategy }
{}

/// A number keeps its strategy as there are more.
pub fn numbers_keep_strategies()
    ensures { NumbersKeepStrategies }
{}
