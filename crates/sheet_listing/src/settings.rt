// The lines on the settings.
ghost use Rattle.std.specs.Prelude.{◌≡◌, ◌++◌, ◌∷◌, [], OnOk, codes};
ghost use Rattle.lics_text.specs.Prefixes.{prefix_byte};
ghost use Rattle.grid_address.specs.Address.{address_of, decimal};
ghost use Rattle.cell_format.specs.Indicator.{indicator_of};
ghost use Rattle.sheet_listing.specs.Lines.{line};
ghost use Rattle.sheet_listing.specs.Listed.{mode_word, order_word, protection_word, settings_lines};

use crate::lines::put_line;
use cell_format::indicator;
use grid_address::{cell_text, decimal_text};
use lics_text::Memory;
use sheet_store::{Order, Settings};

// The order of a recalculation.
fn order_word(order: Order) -> &'static [u8]
    ensures { result.now ≡ order_word order }
{
    match order {
        Order::Natural => b"Natural",
        Order::Columnwise => b"Columnwise",
        Order::Rowwise => b"Rowwise",
    }
}

// Whether a sheet recalculates by itself.
fn mode_word(automatic: bool) -> &'static [u8]
    ensures { result.now ≡ mode_word automatic }
{
    if automatic { b"Automatic" } else { b"Manual" }
}

// Whether a sheet is protected.
fn protection_word(protection: bool) -> &'static [u8]
    ensures { result.now ≡ protection_word protection }
{
    if protection { b"On" } else { b"Off" }
}

// Adds the line on recalculation.
fn put_recalculation(settings: Settings, into: &mut Vec<u8>) -> Result<(), Memory>
    ensures { OnOk result (into.new.items ≡ into.old.items ++ line (codes "recalculation")
        (order_word settings.order ∷ mode_word settings.automatic ∷ decimal settings.passes ∷ [])) }
{
    let passes = decimal_text(u64::from(settings.passes));
    let order = order_word(settings.order);
    let mode = mode_word(settings.automatic);
    put_line(b"recalculation", &[order, mode, passes.bytes()], into)
}

// Adds a line of a word and one field.
fn put_setting(word: &[u8], text: &[u8], into: &mut Vec<u8>) -> Result<(), Memory>
    ensures { OnOk result (into.new.items ≡ into.old.items ++ line word.now (text.now ∷ [])) }
{
    put_line(word, &[text], into)
}

/// Adds the lines on the settings.
pub fn put_settings(settings: Settings, into: &mut Vec<u8>) -> Result<(), Memory>
    ensures { OnOk result (into.new.items ≡ into.old.items ++ settings_lines settings) }
{
    settings.pointer.is_on_sheet();
    let pointer = cell_text(settings.pointer);
    let format = indicator(settings.format);
    let width = decimal_text(u64::from(settings.width));
    put_setting(b"pointer", pointer.bytes(), into)?;
    put_recalculation(settings, into)?;
    put_setting(b"prefix", &[settings.prefix.byte()], into)?;
    put_setting(b"format", format.bytes(), into)?;
    put_setting(b"width", width.bytes(), into)?;
    put_setting(b"protection", protection_word(settings.protection), into)
}
