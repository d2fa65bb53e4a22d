// What the definition of commands tells.
ghost use Rattle.std.specs.Prelude.{◌≡◌, ℕ, Bool, false, true, List, None};
ghost use Rattle.command_desk.specs.Desks.{Desk};
ghost use Rattle.commands_file.specs.Alike.{HoldAlike};
ghost use Rattle.commands_file.specs.Calls.{Reply, ShelfView};
ghost use Rattle.formula_parts.specs.declared.look.Scene.{Scene};
ghost use Rattle.menu_tree.specs.declared.menu.Action.{Action};
ghost use Rattle.serial_date.specs.declared.moment.Moment.{Moment};
ghost use Rattle.session_core.specs.Act.{act, is_print};
ghost use Rattle.session_core.specs.Machine.{Replies, State};
ghost use Rattle.session_core.specs.Standing.{is_at_rest};
ghost use Rattle.session_core.specs.Step.{step, StepTells};
ghost use Rattle.session_core.specs.Unfailing.{WereAnswered};
ghost use Rattle.session_core.specs.declared.event.Event.{Event};

/// No command but those below Print changes what is kept for reports. Nothing is done here: the contract says it.
pub fn only_print_changes_what_reports_need()
    ensures { (a : Action) (answers : List (List ℕ)) (scene : Scene) (d : Desk) (reply : Reply) → is_print a ≡ false →
        (act a answers scene d reply).acted.desk.print ≡ d.print }
{}

/// A step has one outcome, where no call of the shelf fails: a key or a macro's unit, the moment, the state, and the
/// files that the shelf holds tell the next state, what happened in the sheet, whether the run ends, the calls that are
/// made with their answers, and the files that these leave; whether a command that it ends changed the sheet has one
/// answer. Nothing is done here: the contract says it.
pub fn a_step_has_one_outcome()
    ensures { (event : Event) (now : Moment) (s : State) (one other : Replies) (p q : Bool) (a b c d : ShelfView) →
        HoldAlike a b → StepTells event now one p s → StepTells event now other q s →
        WereAnswered (step event now one p s).calls a c → WereAnswered (step event now other q s).calls b d →
        (step event now one p s ≡ step event now other q s) × HoldAlike c d }
{}

/// Behind a step that comes to READY outside a macro no command is begun. Nothing is done here: the contract says it.
pub fn no_command_is_begun_in_ready()
    ensures { (event : Event) (now : Moment) (replies : Replies) (changed : Bool) (s : State) →
        is_at_rest (step event now replies changed s).state ≡ true →
        (step event now replies changed s).state.history.begun ≡ None }
{}
