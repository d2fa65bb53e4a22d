//! Worksheet files: a sheet as a list of records, written and read (worksheet file format).
#![tactic(auto)]

mod laws;
mod load;
mod put_cells;
mod put_names;
mod put_settings;
mod save;
mod take;

pub use laws::{
    a_file_is_one_sheet, bytes_are_a_file, cells_are_filled, cells_are_read, file_is_read,
    names_are_read, records_are_split, settings_are_read, widths_are_read, written_is_read,
};
pub use load::read;
pub use save::{write, write_parts};
pub use wk1_records::Wk1Fault;
