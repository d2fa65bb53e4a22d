// Laws of the natural order. Each function does nothing, and stands for its clause.
ghost use Rattle.grid_address.specs.Place.{same_place};
ghost use Rattle.natural_order.specs.Walk.{OrderCovers, OrderIsCut, OrderPrecedes};

/// The order of all formulas without the clean ones is the order of the dirty ones, with the same circles.
pub fn order_is_cut()
    ensures { OrderIsCut same_place }
{}

/// In the order a formula stands after all that it reads, unless it reaches itself.
pub fn order_precedes()
    ensures { OrderPrecedes same_place }
{}

/// Each formula that is walked stands in the order: the levels of the walk are never used up.
pub fn order_covers()
    ensures { OrderCovers same_place }
{}
