//! What configurations and strategies are made of is compared by its fields.

use crate::configs::{Bound, Config, Frame, Todo};
use crate::forms::Form;
use crate::numbered::Exact;

impl Exact for Bound {
    ghost use Rattle.mau_strat.specs.Compared.{Decides-bound};

    ghost exact = { Decides-bound };
}

impl Exact for Todo {
    ghost use Rattle.mau_strat.specs.Compared.{Decides-todo};

    ghost exact = { Decides-todo };
}

impl Exact for Frame {
    ghost use Rattle.mau_strat.specs.Compared.{Decides-frame};

    ghost exact = { Decides-frame };
}

impl Exact for Config {
    ghost use Rattle.mau_strat.specs.Compared.{Decides-config};

    ghost exact = { Decides-config };
}

impl Exact for Form {
    ghost use Rattle.mau_strat.specs.ComparedForms.{Decides-form};

    ghost exact = { Decides-form };
}
