ghost use Rattle.call_order.specs.Layers.{LayersLead, CyclesFound, CyclesBroken, CyclesNone};
ghost use Rattle.call_order.specs.Peel.{OrdersFound, WholeAcyclic};

/// Layers of functions lead to the goal by as many calls as there are layers.
pub fn layers_lead()
    ensures { LayersLead }
{}

/// The calls that are found to lie on a cycle are those that the rule names.
pub fn cycles_found()
    ensures { CyclesFound }
{}

/// Where the rule names no call no call lies on a cycle.
pub fn cycles_broken()
    ensures { CyclesBroken }
{}

/// Where no call lies on a cycle, functions that are taken round by round, each behind those that it calls, are an order of all.
pub fn orders_found()
    ensures { OrdersFound }
{}

/// Where no call lies on a cycle the rule names no call.
pub fn cycles_none()
    ensures { CyclesNone }
{}

/// Where each function is taken behind those that it calls no call lies on a cycle.
pub fn whole_acyclic()
    ensures { WholeAcyclic }
{}
