//! Laws of interpretations: each contract is one, and each body is empty.
ghost use Rattle.asp_reduct.specs.Laws.{OrdersAreOne};

/// The order of packed interpretations is the order of their sets of true places, which is that of `subsets` and of pages.
pub fn orders_are_one()
    ensures { OrdersAreOne }
{}
