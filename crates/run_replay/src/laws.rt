ghost use Rattle.run_replay.specs.Replays.{OrdersAgree};

/// An order of a program's functions, each once and behind those that it calls, is one in which its code runs as the program.
pub fn orders_agree()
    ensures { OrdersAgree }
{}
