// Parts of a macro's text.
ghost use Rattle.std.specs.Prelude.{◌≡◌, IfSome, IfNone, None, Some};
ghost use Rattle.formula_tree.specs.Seen.{seen_value};
ghost use Rattle.lics_text.specs.Bytes.{IsText};
ghost use Rattle.macro_text.specs.Texts as spec;
ghost use Rattle.value_functions.specs.Values.{text_in};
ghost use Rattle.lics_text.specs.Seen.{seen_text};

use formula_parts::Look;
use formula_tree::{ContentRef, ValueRef};
use grid_address::Cell;
use key_words::Cut;
use lics_text::TextRef;

/// The text that a value is.
pub fn text_in<'a>(value: &ValueRef<'a>) -> Option<TextRef<'a>>
    ensures some { IfSome result (λ t. text_in (seen_value value.now) ≡ Some (seen_text t)) }
    ensures none { IfNone result (text_in (seen_value value.now) ≡ None) }
{
    match value {
        ValueRef::Str(text) => Some(*text),
        ValueRef::Blank | ValueRef::Num(_) | ValueRef::Err | ValueRef::Na => None,
    }
}

/// The text that a macro is read from in a cell: a label's without its prefix, or the text that a formula has as its
/// value. Any other content ends the routine (Release 2 manual for labels).
pub fn macro_text<K: Look>(look: &K, cell: Cell) -> Option<TextRef<'_>>
    ensures some { IfSome result (λ t. spec.macro_text (K.sight look.now) cell ≡ Some (seen_text t)) }
    ensures none { IfNone result (spec.macro_text (K.sight look.now) cell ≡ None) }
{
    match look.content(cell) {
        Some(ContentRef::Label(_, text)) => Some(text),
        Some(ContentRef::Formula(_)) => text_in(&look.value(cell)),
        Some(ContentRef::Blank) => None,
        Some(ContentRef::Number(_)) => None,
        None => None,
    }
}

/// A part of a text, as far as the text has it.
pub fn part(text: &[u8], cut: Cut) -> &[u8]
    ensures part { result.now ≡ spec.part text.now cut }
    ensures text { IsText text.now → IsText result.now }
{
    let to = cut.to.min(text.len());
    let from = cut.from.min(to);
    &text[from..to]
}
