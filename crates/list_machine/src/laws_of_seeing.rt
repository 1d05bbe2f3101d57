// The laws of what is seen of handlers.
ghost use Rattle.std.specs.Prelude.{List};
ghost use Rattle.list_machine.specs.declared.steps.Step.{Step};
ghost use Rattle.list_machine.specs.States.{State};
ghost use Rattle.list_machine.specs.Machine.{Turn, Runs};
ghost use Rattle.list_machine.specs.Seeing.{state_map, pulled_reacts, pulled_writes};

use request_lists::Handler;

/// The laws of what is seen. A turn of handlers, with what they do said of their plain data, is a turn of that data, and so is a
/// whole run.
pub fn seeing_laws<H: Handler>()
    ensures turn { (old new : State H) (step : Step) (lines : List H.Line)
        → Turn (pulled_reacts H.plain H.reacts) (pulled_writes H.plain H.writes) old step new lines
        → Turn H.reacts H.writes (state_map H.plain old) step (state_map H.plain new) lines }
    ensures run { (old new : State H) (step : Step) (lines : List H.Line)
        → Runs (pulled_reacts H.plain H.reacts) (pulled_writes H.plain H.writes) old step new lines
        → Runs H.reacts H.writes (state_map H.plain old) step (state_map H.plain new) lines }
{}
