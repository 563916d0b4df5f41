//! Lines of a turn that do not come in its order.
ghost use Rattle.run_model.specs.Order.{IsInOrder};
ghost use Rattle.wrong_journals.specs.Orders.{other_fed_first, side_fed_twice};

/// In a turn A is fed first and then B, each at most once.
pub fn wrong_orders_of_turns_are_refused()
    ensures other { IsInOrder other_fed_first → ⊥ }
    ensures twice { IsInOrder side_fed_twice → ⊥ }
{}
