// What a format byte asks for.
ghost use Rattle.std.specs.Prelude.{◌≡◌, ◌<◌};
ghost use Rattle.cell_format.specs.Format.{shape_by, shape_of, special, HasFewPlaces};

use grid_address::Format;

/// How a day is shown: 01-Jun-87, 01-Jun or Jun-87.
#[derive(Clone, Copy)]
pub enum DateForm {
    DayMonthYear,
    DayMonth,
    MonthYear,
}

/// What a format byte asks for, without its protection. The first five have their decimals, 0 to 15.
/// (Worksheet file format.)
#[derive(Clone, Copy)]
pub enum Shape {
    Fixed(u8),
    Scientific(u8),
    Currency(u8),
    Percent(u8),
    Comma(u8),
    Bar,
    General,
    Date(DateForm),
    Text,
    Hidden,
    Default,
    Unnamed,
}

// The details of kind 7.
fn special(detail: u8) -> Shape
    ensures { result ≡ special detail }
{
    match detail {
        0 => Shape::Bar,
        1 => Shape::General,
        2 => Shape::Date(DateForm::DayMonthYear),
        3 => Shape::Date(DateForm::DayMonth),
        4 => Shape::Date(DateForm::MonthYear),
        5 => Shape::Text,
        6 => Shape::Hidden,
        15 => Shape::Default,
        _ => Shape::Unnamed,
    }
}

// What a kind and its detail ask for.
fn shape_by(kind: u8, detail: u8) -> Shape
    ensures { result ≡ shape_by kind detail }
{
    match kind {
        0 => Shape::Fixed(detail),
        1 => Shape::Scientific(detail),
        2 => Shape::Currency(detail),
        3 => Shape::Percent(detail),
        4 => Shape::Comma(detail),
        7 => special(detail),
        _ => Shape::Unnamed,
    }
}

/// What the format byte asks for.
#[tactic(auto, unfolding(crate::specs::Format::shape_of))]
pub fn shape_of(format: Format) -> Shape
    ensures shape { result ≡ shape_of format.0 }
    ensures places { HasFewPlaces result }
{
    shape_by(format.kind(), format.places())
}
