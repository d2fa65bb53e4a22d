// The desk.
ghost use Rattle.std.specs.Prelude.{◌≡◌, [], IfOk};
ghost use Rattle.command_desk.specs.Desks.{fresh_desk, of_desk};
ghost use Rattle.sheet_undo.specs.Histories.{no_history};

use crate::printing::PrintDesk;
use data_blocks::DeskRanges;
use lics_text::Memory;
use outside_world::FileName;
use std::alloc::Global;
use work_sheet::Worksheet;

/// What commands work on: the worksheet, what the commands on data and those on reports keep, and the name of the file
/// that was saved last.
#[derive(Drop)]
pub struct Desk {
    pub sheet: Worksheet,
    pub ranges: DeskRanges,
    pub file_name: Option<FileName>,
    pub print: PrintDesk,
}

impl Desk {
    /// A fresh desk: an empty worksheet, and nothing is kept.
    pub fn new(alloc: Global) -> Result<Desk, Memory>
        ensures desk { IfOk result (λ desk. of_desk desk ≡ fresh_desk) }
        ensures dirty { IfOk result (λ desk. desk.sheet.dirty ≡ []) }
        ensures history { IfOk result (λ desk. desk.sheet.history ≡ no_history) }
    {
        let print = PrintDesk::new(alloc)?;
        Ok(Desk {
            sheet: Worksheet::new(alloc),
            ranges: DeskRanges::new(),
            file_name: None,
            print,
        })
    }
}
