// The items of each menu, as they are listed below the item that opens it.
ghost use Rattle.std.specs.Prelude.{◌≡◌, ◌≤◌, length, take};
ghost use Rattle.room_keys.specs.menu.Ring.{listed};
ghost use Rattle.room_keys.specs.menu.Room.{names_of};

use lics_text::MAX_LEN;
use menu_tree::Menu;

/// The names of a menu's items with two spaces between them.
pub(crate) fn listed(menu: Menu) -> &'static [u8]
    ensures text { result.now ≡ take MAX_LEN (listed (names_of menu)) }
    ensures short { length result.now ≤ MAX_LEN }
{
    match menu {
        Menu::Main => b"Worksheet  Range  Copy  Move  File  Print  Data  Quit",
        Menu::Worksheet => b"Global  Insert  Delete  Column  Erase",
        Menu::Global => b"Format  Label-Prefix  Column-Width  Recalculation  Protection",
        Menu::GlobalFormat => b"Fixed  Currency  ,  General  Percent  Date  Text  Hidden",
        Menu::GlobalDate | Menu::RangeDate => b"1  2  3",
        Menu::LabelPrefix | Menu::Label => b"Left  Right  Center",
        Menu::Recalculation => b"Natural  Columnwise  Rowwise  Automatic  Manual  Iteration",
        Menu::Protection => b"Enable  Disable",
        Menu::Insert | Menu::Delete => b"Column  Row",
        Menu::Column => b"Set-Width  Reset-Width  Hide  Display",
        Menu::WorksheetErase | Menu::Quit => b"No  Yes",
        Menu::Range => b"Format  Label  Erase  Name  Protect  Unprotect  Value  Transpose",
        Menu::RangeFormat => b"Fixed  Currency  ,  General  Percent  Date  Text  Hidden  Reset",
        Menu::Name => b"Create  Delete  Reset",
        Menu::File => b"Retrieve  Save  Combine  Xtract  Erase",
        Menu::Combine => b"Copy  Add  Subtract",
        Menu::Xtract => b"Formulas  Values",
        Menu::Print => b"File",
        Menu::PrintFileMenu => b"Range  Options  Go  Quit",
        Menu::Options => b"Header  Footer  Margins  Pg-Length  Quit",
        Menu::Margins => b"Left  Right  Top  Bottom  Quit",
        Menu::Data => b"Fill  Table  Sort  Query  Distribution",
        Menu::Table => b"1  2  Reset",
        Menu::Sort => b"Data-Range  Primary-Key  Secondary-Key  Reset  Quit  Go",
        Menu::Query => b"Input  Criterion  Output  Extract  Unique  Delete  Reset  Quit",
        Menu::QueryDelete => b"Cancel  Delete",
    }
}
