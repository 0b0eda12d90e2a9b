//! The rule of a table, as `atomic_table` is told it.
ghost use Rattle.snap_steps.specs.Roles.{opener};
ghost use Rattle.snap_steps.specs.Rule.{Kept};

use crate::view::View;
use atomic_table::TableRule;

/// The size of a table, which the rule is told once.
#[derive(Drop)]
pub struct About {
    pub rows: u32,
    pub passes: u32,
}

pub struct Law;

impl TableRule<(), View, About> for Law {
    ghost holds = { λ about s. Kept about s.words s.views };

    ghost first = { λ about. opener about.rows about.passes 0 };
}
