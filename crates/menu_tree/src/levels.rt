// How the menus hang together.
ghost use Rattle.std.specs.Prelude.{◌≡◌};
ghost use Rattle.menu_tree.specs.Levels.{back, back_from_data, back_from_print, parent};

use crate::{Action, DataAction, Menu, PrintAction};

/// The menu one level up; none above the main menu (Release 2 manual).
pub fn parent(menu: Menu) -> Option<Menu>
    ensures { result ≡ parent menu }
{
    match menu {
        Menu::Main => None,
        Menu::Worksheet | Menu::Range | Menu::File | Menu::Print | Menu::Data | Menu::Quit => {
            Some(Menu::Main)
        }
        Menu::Global | Menu::Insert | Menu::Delete | Menu::Column | Menu::WorksheetErase => {
            Some(Menu::Worksheet)
        }
        Menu::GlobalFormat | Menu::LabelPrefix | Menu::Recalculation | Menu::Protection => {
            Some(Menu::Global)
        }
        Menu::GlobalDate => Some(Menu::GlobalFormat),
        Menu::RangeFormat | Menu::Label | Menu::Name => Some(Menu::Range),
        Menu::RangeDate => Some(Menu::RangeFormat),
        Menu::Combine | Menu::Xtract => Some(Menu::File),
        Menu::PrintFileMenu => Some(Menu::Print),
        Menu::Options => Some(Menu::PrintFileMenu),
        Menu::Margins => Some(Menu::Options),
        Menu::Table | Menu::Sort | Menu::Query => Some(Menu::Data),
        Menu::QueryDelete => Some(Menu::Query),
    }
}

// Behind a print setting.
fn back_from_print(action: PrintAction) -> Option<Menu>
    ensures { result ≡ back_from_print action }
{
    match action {
        PrintAction::File | PrintAction::Range | PrintAction::LeaveOptions => {
            Some(Menu::PrintFileMenu)
        }
        PrintAction::Header | PrintAction::Footer | PrintAction::PageLength => Some(Menu::Options),
        PrintAction::MarginLeft | PrintAction::MarginRight => Some(Menu::Margins),
        PrintAction::MarginTop | PrintAction::MarginBottom => Some(Menu::Margins),
        PrintAction::LeaveMargins => Some(Menu::Options),
        PrintAction::Go => None,
    }
}

// Behind a setting of a sort or a query.
fn back_from_data(action: DataAction) -> Option<Menu>
    ensures { result ≡ back_from_data action }
{
    match action {
        DataAction::DataRange | DataAction::PrimaryKey | DataAction::SecondaryKey => {
            Some(Menu::Sort)
        }
        DataAction::Input | DataAction::Criterion | DataAction::Output => Some(Menu::Query),
        _ => None,
    }
}

/// The menu that is shown once an action is done: a setting that is kept goes back to its menu, and any other action to
/// READY, which is none (Release 2 manual).
pub fn back(action: Action) -> Option<Menu>
    ensures { result ≡ back action }
{
    match action {
        Action::Print(action) => back_from_print(action),
        Action::Data(action) => back_from_data(action),
        _ => None,
    }
}
