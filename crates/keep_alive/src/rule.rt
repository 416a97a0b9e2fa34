// The rule that ties what the seats know to the word.
use crate::view::View;
use atomic_table::TableRule;

pub struct CountRule;

impl TableRule<u32, View, u32> for CountRule {
    ghost use Rattle.keep_alive.specs.declared.view.View.TheVariants.{Making};
    ghost use Rattle.keep_alive.specs.Rule.{CountHolds};

    ghost holds = { λ _ s. CountHolds s };

    ghost first = { λ room. Making room };
}
