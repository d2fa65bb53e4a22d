// The settings that the commands below Worksheet, Global change.
ghost use Rattle.std.specs.Prelude.{◌≡◌, ◌≤◌, ◌∷◌, [], true, false, IfOk};
ghost use Rattle.command_desk.specs.Answered.{whole_at};
ghost use Rattle.command_desk.specs.Formats.{HasDecimals};
ghost use Rattle.commands_worksheet.specs.Commands.{settings_after, with_format};
ghost use Rattle.menu_tree.specs.Tree.{worksheet_asks};
ghost use Rattle.menu_tree.specs.declared.menu.Action.TheVariants as actions;
ghost use Rattle.menu_tree.specs.declared.menu.Ask.TheVariants as ask;
ghost use Rattle.menu_tree.specs.declared.menu.WorksheetAction.TheVariants as worksheet;
ghost use Rattle.sheet_store.specs.Choices.{is_global_prefix};

use command_desk::{FormatChoice, whole_at};
use desk_errors::CommandError;
use grid_address::Format;
use lics_text::LabelPrefix;
use menu_tree::{Action, WorksheetAction};
use session_rooms::Answers;
use sheet_store::Settings;

// The decimals that a format is given, 0 to 15.
fn decimals_given(action: WorksheetAction, answers: &Answers) -> Result<u8, CommandError>
    requires { worksheet_asks action ≡ ask.Whole 0 15 ∷ [] }
    ensures whole { result ≡ whole_at (actions.Worksheet action) answers.now 0 }
    ensures most { IfOk result (λ n. n ≤ 15) }
{
    whole_at(Action::Worksheet(action), answers, 0)
}

// The settings with another format.
fn with_format(choice: FormatChoice, settings: Settings) -> Settings
    requires { HasDecimals choice }
    ensures { result ≡ with_format choice settings }
{
    Settings {
        format: Format(choice.code()),
        ..settings
    }
}

// The settings with another label prefix.
fn with_prefix(prefix: LabelPrefix, settings: Settings) -> Settings
    requires { is_global_prefix prefix ≡ true }
    ensures { result ≡ record settings { prefix = prefix } }
{
    Settings { prefix, ..settings }
}

// The settings with another mode of recalculation.
fn with_mode(automatic: bool, settings: Settings) -> Settings
    ensures { result ≡ record settings { automatic = automatic } }
{
    Settings {
        automatic,
        ..settings
    }
}

// The settings with protection on or off.
fn with_protection(protection: bool, settings: Settings) -> Settings
    ensures { result ≡ record settings { protection = protection } }
{
    Settings {
        protection,
        ..settings
    }
}

// The settings with the width that is asked for.
fn width_given(answers: &Answers, settings: Settings) -> Result<Settings, CommandError>
    ensures settings { result ≡ settings_after worksheet.GlobalWidth answers.now settings }
    ensures order { IfOk result (λ after. after.order ≡ settings.order) }
{
    let width = whole_at(Action::Worksheet(WorksheetAction::GlobalWidth), answers, 0)?;
    Ok(Settings { width, ..settings })
}

// The settings with the passes that are asked for.
fn passes_given(answers: &Answers, settings: Settings) -> Result<Settings, CommandError>
    ensures settings { result ≡ settings_after worksheet.Iteration answers.now settings }
    ensures order { IfOk result (λ after. after.order ≡ settings.order) }
{
    let passes = whole_at(Action::Worksheet(WorksheetAction::Iteration), answers, 0)?;
    Ok(Settings { passes, ..settings })
}

/// The settings after a command that changes nothing else, of which the order stays as it is; any other command leaves
/// them. `InvalidNumber` comes exactly where the command asks for a number and its answer is none within the bounds of
/// the prompt.
pub fn settings_after(
    action: WorksheetAction,
    answers: &Answers,
    settings: Settings,
) -> Result<Settings, CommandError>
    ensures settings { result ≡ settings_after action answers.now settings }
    ensures order { IfOk result (λ after. after.order ≡ settings.order) }
{
    match action {
        WorksheetAction::GlobalWidth => width_given(answers, settings),
        WorksheetAction::GlobalFixed => {
            let decimals = decimals_given(action, answers)?;
            Ok(with_format(FormatChoice::Fixed(decimals), settings))
        }
        WorksheetAction::GlobalCurrency => {
            let decimals = decimals_given(action, answers)?;
            Ok(with_format(FormatChoice::Currency(decimals), settings))
        }
        WorksheetAction::GlobalComma => {
            let decimals = decimals_given(action, answers)?;
            Ok(with_format(FormatChoice::Comma(decimals), settings))
        }
        WorksheetAction::GlobalPercent => {
            let decimals = decimals_given(action, answers)?;
            Ok(with_format(FormatChoice::Percent(decimals), settings))
        }
        WorksheetAction::GlobalGeneral => Ok(with_format(FormatChoice::General, settings)),
        WorksheetAction::GlobalText => Ok(with_format(FormatChoice::Text, settings)),
        WorksheetAction::GlobalHidden => Ok(with_format(FormatChoice::Hidden, settings)),
        WorksheetAction::GlobalDate1 => Ok(with_format(FormatChoice::Date1, settings)),
        WorksheetAction::GlobalDate2 => Ok(with_format(FormatChoice::Date2, settings)),
        WorksheetAction::GlobalDate3 => Ok(with_format(FormatChoice::Date3, settings)),
        WorksheetAction::GlobalLeft => Ok(with_prefix(LabelPrefix::Left, settings)),
        WorksheetAction::GlobalRight => Ok(with_prefix(LabelPrefix::Right, settings)),
        WorksheetAction::GlobalCenter => Ok(with_prefix(LabelPrefix::Center, settings)),
        WorksheetAction::Automatic => Ok(with_mode(true, settings)),
        WorksheetAction::Manual => Ok(with_mode(false, settings)),
        WorksheetAction::Iteration => passes_given(answers, settings),
        WorksheetAction::Enable => Ok(with_protection(true, settings)),
        WorksheetAction::Disable => Ok(with_protection(false, settings)),
        _ => Ok(settings),
    }
}
