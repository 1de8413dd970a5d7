//! The law.
ghost use Rattle.std.specs.Prelude.{◌≡◌, Ok};
ghost use Rattle.hr_said.specs.declared.scenario.Scenario.{Scenario};
ghost use Rattle.hr_reader.specs.Reading.{scenario_of};
ghost use Rattle.hr_generator.specs.declared.order.Order.{Order};
ghost use Rattle.hr_generator.specs.Orders.{IsOrder};
ghost use Rattle.hr_generator.specs.Made.{made};

/// What an order makes is a scenario.
pub fn made_is_read()
    ensures { (order : Order) → IsOrder order → (sc : Scenario) × (scenario_of (made order) ≡ Ok sc) }
{}
