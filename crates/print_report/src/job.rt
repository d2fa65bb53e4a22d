// What is printed, and how.
use crate::{PrintSettings, PrintedSheet};
use grid_address::Span;
use serial_date::Moment;

/// The settings, the worksheet, the range that is printed, and the moment.
#[derive(Clone, Copy)]
pub struct Job<'a> {
    pub set: &'a PrintSettings,
    pub sheet: PrintedSheet<'a>,
    pub range: Span,
    pub moment: Moment,
}
