// What a cell holds.
ghost use Rattle.std.specs.Prelude.{◌≡◌, ℤ, true, IfOk, IfSome, IfNone};
ghost use Rattle.formula_tree.specs.Seen.{seen_content, seen_value};
ghost use Rattle.formula_tree.specs.declared.value.Content.TheVariants as content;
ghost use Rattle.formula_tree.specs.declared.value.Value.TheVariants as value;
ghost use Rattle.lics_text.specs.Bytes.{IsText};
ghost use Rattle.sheet_store.specs.Grid.{blank_state, is_blank, is_formula, is_kept};
ghost use Rattle.sheet_store.specs.inner.Kept.{state_kept};

use fixed_value::Fixed;
use formula_tree::{Content, ContentRef, Formula, Value, ValueRef};
use grid_address::Format;
use lics_text::{LabelPrefix, MAX_LEN, Memory, ShortText, TextRef, TextRoom};
use std::alloc::Global;
use std::marker::Model;

// A formula with its value.
#[derive(Drop)]
pub(crate) struct Computed {
    formula: Formula,
    value: Value,
}

// A format with a content; a formula has a value of its own. The text of a label stands here where it has up to 13
// bytes, and else in the smallest block that has room for it. The kinds that a sum asks for stand first, as
// they are told soonest then.
#[derive(Drop)]
pub(crate) enum Kept {
    Number(Format, Fixed),
    Formula(Format, Box<Computed>),
    Blank(Format),
    In13(Format, LabelPrefix, ShortText),
    In22(Format, LabelPrefix, Box<TextRoom<22>>),
    In55(Format, LabelPrefix, Box<TextRoom<55>>),
    In119(Format, LabelPrefix, Box<TextRoom<119>>),
    In183(Format, LabelPrefix, Box<TextRoom<183>>),
    In240(Format, LabelPrefix, Box<TextRoom<MAX_LEN>>),
}

// A label of more than 22 bytes, whose text has a block of its own.
#[inline(never)]
fn in_block(
    alloc: Global,
    prefix: LabelPrefix,
    bytes: &[u8],
    format: Format,
) -> Result<Kept, Memory>
    requires { IsText bytes.now }
    ensures { IfOk result (λ k. state_kept k ≡ record {
      content = content.Label prefix bytes.now;
      value = value.Str bytes.now;
      format = format;
    }) }
{
    let size = bytes.len();
    if size <= 55 {
        Ok(Kept::In55(format, prefix, TextRoom::block(alloc, bytes)?))
    } else if size <= 119 {
        Ok(Kept::In119(format, prefix, TextRoom::block(alloc, bytes)?))
    } else if size <= 183 {
        Ok(Kept::In183(format, prefix, TextRoom::block(alloc, bytes)?))
    } else {
        Ok(Kept::In240(format, prefix, TextRoom::block(alloc, bytes)?))
    }
}

// A label as `CellState::label` makes it, by a call of its own.
#[inline(never)]
fn copied(
    alloc: Global,
    prefix: LabelPrefix,
    bytes: &[u8],
    format: Format,
) -> Result<CellState, Memory>
    requires { IsText bytes.now }
    ensures { IfOk result (λ s. s ≡ record {
      content = content.Label prefix bytes.now;
      value = value.Str bytes.now;
      format = format;
    }) }
{
    CellState::label(alloc, prefix, bytes, format)
}

/// A content with its value and its format byte. It takes 16 bytes, and memory of its own for a formula and for a label
/// of more than 13 bytes.
#[derive(Drop)]
pub struct CellState {
    kept: Kept,
}

impl Model for CellState {
    ghost use Rattle.formula_tree.specs.contracts.formula.Formula as formula;
    ghost use Rattle.std.specs.Coded.{codes};
    ghost use Rattle.sheet_store.specs.State.{CellState};

    ghost Value = { CellState };

    ghost coded = { Prim.hlevel (codes, formula.the_row.coded) };

    ghost use Rattle.sheet_store.specs.inner.Kept.{state_kept};

    ghost view = { λ s. state_kept s.kept };
}

impl CellState {
    /// A blank cell in a format.
    pub fn blank(format: Format) -> CellState
        ensures { result ≡ blank_state format }
    {
        CellState {
            kept: Kept::Blank(format),
        }
    }

    /// A number in a format.
    pub fn number(number: Fixed, format: Format) -> CellState
        ensures { result ≡ record { content = content.Number number; value = value.Num number; format = format } }
    {
        CellState {
            kept: Kept::Number(format, number),
        }
    }

    /// A label in a format, whose text is of bytes that are a text's.
    #[inline(always)]
    pub fn label(
        alloc: Global,
        prefix: LabelPrefix,
        bytes: &[u8],
        format: Format,
    ) -> Result<CellState, Memory>
        requires { IsText bytes.now }
        ensures { IfOk result (λ s. s ≡ record {
          content = content.Label prefix bytes.now;
          value = value.Str bytes.now;
          format = format;
        }) }
    {
        let size = bytes.len();
        let kept = if size == 1 {
            Kept::In13(format, prefix, ShortText::of(alloc, &[bytes[0]]))
        } else if size <= 13 {
            Kept::In13(format, prefix, ShortText::of(alloc, bytes))
        } else if size <= 22 {
            Kept::In22(format, prefix, TextRoom::small_block(alloc, bytes)?)
        } else {
            in_block(alloc, prefix, bytes, format)?
        };
        Ok(CellState { kept })
    }

    /// A formula with its value in a format.
    pub fn formula(formula: Formula, value: Value, format: Format) -> Result<CellState, Memory>
        ensures { IfOk result (λ s. s ≡ record { content = content.Formula formula; value = value; format = format }) }
    {
        let alloc = formula.alloc();
        let computed = Box::new(alloc, Computed { formula, value })?;
        Ok(CellState {
            kept: Kept::Formula(format, computed),
        })
    }

    /// The same value and format with another formula.
    pub fn with_formula(&self, formula: Formula) -> Result<CellState, Memory>
        requires { is_formula self.now.content ≡ true }
        ensures { IfOk result (λ s. s ≡ record self.now { content = content.Formula formula }) }
    {
        match &self.kept {
            Kept::Formula(format, computed) => {
                CellState::formula(formula, computed.value.copy()?, *format)
            }
            _ => unreachable!(),
        }
    }

    /// The content.
    #[inline(always)]
    pub fn content(&self) -> ContentRef<'_>
        ensures { seen_content result ≡ self.now.content }
    {
        match &self.kept {
            Kept::Blank(_) => ContentRef::Blank,
            Kept::Number(_, number) => ContentRef::Number(*number),
            Kept::Formula(_, computed) => ContentRef::Formula(&computed.formula),
            Kept::In13(_, prefix, text) => ContentRef::Label(*prefix, TextRef::In13(text)),
            Kept::In22(_, prefix, text) => ContentRef::Label(*prefix, TextRef::In22(text)),
            Kept::In55(_, prefix, text) => ContentRef::Label(*prefix, TextRef::In55(text)),
            Kept::In119(_, prefix, text) => ContentRef::Label(*prefix, TextRef::In119(text)),
            Kept::In183(_, prefix, text) => ContentRef::Label(*prefix, TextRef::In183(text)),
            Kept::In240(_, prefix, text) => ContentRef::Label(*prefix, TextRef::In240(text)),
        }
    }

    /// An equal content, in memory of its own. A formula's tree is shared with this one's.
    #[inline(always)]
    pub fn copied_content(&self) -> Result<Content, Memory>
        ensures { IfOk result (λ c. c ≡ self.now.content) }
    {
        match &self.kept {
            Kept::Blank(_) => Ok(Content::Blank),
            Kept::Number(_, number) => Ok(Content::Number(*number)),
            Kept::Formula(_, computed) => Ok(Content::Formula(computed.formula.copy()?)),
            Kept::In13(_, prefix, text) => Ok(Content::Label(*prefix, text.copy()?)),
            Kept::In22(_, prefix, text) => Ok(Content::Label(*prefix, text.copy()?)),
            Kept::In55(_, prefix, text) => Ok(Content::Label(*prefix, text.copy()?)),
            Kept::In119(_, prefix, text) => Ok(Content::Label(*prefix, text.copy()?)),
            Kept::In183(_, prefix, text) => Ok(Content::Label(*prefix, text.copy()?)),
            Kept::In240(_, prefix, text) => Ok(Content::Label(*prefix, text.copy()?)),
        }
    }

    /// The value.
    #[inline(always)]
    pub fn value(&self) -> ValueRef<'_>
        ensures { seen_value result ≡ self.now.value }
    {
        match &self.kept {
            Kept::Blank(_) => ValueRef::Blank,
            Kept::Number(_, number) => ValueRef::Num(*number),
            Kept::Formula(_, computed) => computed.value.as_ref(),
            Kept::In13(_, _, text) => ValueRef::Str(TextRef::In13(text)),
            Kept::In22(_, _, text) => ValueRef::Str(TextRef::In22(text)),
            Kept::In55(_, _, text) => ValueRef::Str(TextRef::In55(text)),
            Kept::In119(_, _, text) => ValueRef::Str(TextRef::In119(text)),
            Kept::In183(_, _, text) => ValueRef::Str(TextRef::In183(text)),
            Kept::In240(_, _, text) => ValueRef::Str(TextRef::In240(text)),
        }
    }

    /// The number that the value is; none where it is something else.
    #[inline(always)]
    pub fn number_value(&self) -> Option<Fixed>
        ensures some { IfSome result (λ n. self.now.value ≡ value.Num n) }
        ensures none { IfNone result ((n : ℤ) → self.now.value ≡ value.Num n → ⊥) }
    {
        match &self.kept {
            Kept::Number(_, number) => Some(*number),
            Kept::Formula(_, computed) => match &computed.value {
                Value::Num(number) => Some(*number),
                Value::Blank | Value::Str(_) | Value::Err | Value::Na => None,
            },
            _ => None,
        }
    }

    /// An equal value, in memory of its own.
    pub fn copied_value(&self) -> Result<Value, Memory>
        ensures { IfOk result (λ v. v ≡ self.now.value) }
    {
        match &self.kept {
            Kept::Blank(_) => Ok(Value::Blank),
            Kept::Number(_, number) => Ok(Value::Num(*number)),
            Kept::Formula(_, computed) => computed.value.copy(),
            Kept::In13(_, _, text) => Ok(Value::Str(text.copy()?)),
            Kept::In22(_, _, text) => Ok(Value::Str(text.copy()?)),
            Kept::In55(_, _, text) => Ok(Value::Str(text.copy()?)),
            Kept::In119(_, _, text) => Ok(Value::Str(text.copy()?)),
            Kept::In183(_, _, text) => Ok(Value::Str(text.copy()?)),
            Kept::In240(_, _, text) => Ok(Value::Str(text.copy()?)),
        }
    }

    /// The format byte.
    #[inline(always)]
    pub fn format(&self) -> Format
        ensures { result ≡ self.now.format }
    {
        match &self.kept {
            Kept::Blank(format) => *format,
            Kept::Number(format, _) => *format,
            Kept::Formula(format, _) => *format,
            Kept::In13(format, _, _) => *format,
            Kept::In22(format, _, _) => *format,
            Kept::In55(format, _, _) => *format,
            Kept::In119(format, _, _) => *format,
            Kept::In183(format, _, _) => *format,
            Kept::In240(format, _, _) => *format,
        }
    }

    /// Whether it has no content.
    pub fn is_blank(&self) -> bool
        ensures { result ≡ is_blank self.now.content }
    {
        matches!(&self.kept, Kept::Blank(_))
    }

    /// Whether its content is a formula.
    pub fn is_formula(&self) -> bool
        ensures { result ≡ is_formula self.now.content }
    {
        matches!(&self.kept, Kept::Formula(_, _))
    }

    /// Gives it another format.
    pub fn set_format(&mut self, format: Format)
        ensures { self.new ≡ record self.old { format = format } }
    {
        match &mut self.kept {
            Kept::Blank(old) => *old = format,
            Kept::Number(old, _) => *old = format,
            Kept::Formula(old, _) => *old = format,
            Kept::In13(old, _, _) => *old = format,
            Kept::In22(old, _, _) => *old = format,
            Kept::In55(old, _, _) => *old = format,
            Kept::In119(old, _, _) => *old = format,
            Kept::In183(old, _, _) => *old = format,
            Kept::In240(old, _, _) => *old = format,
        }
    }

    /// Gives a formula another value.
    #[inline(always)]
    pub fn set_value(&mut self, value: Value)
        requires { is_formula self.old.content ≡ true }
        ensures { self.new ≡ record self.old { value = value } }
    {
        match &mut self.kept {
            Kept::Formula(_, computed) => computed.value = value,
            _ => unreachable!(),
        }
    }

    /// Whether a store keeps it: all but a blank cell in the default format.
    pub fn is_kept(&self) -> bool
        ensures { result ≡ is_kept self.now }
    {
        match &self.kept {
            Kept::Blank(format) => format.0 != Format::DEFAULT.0,
            _ => true,
        }
    }

    /// An equal state. A formula's tree is shared with this one's.
    #[inline(always)]
    pub fn copy(&self, alloc: Global) -> Result<CellState, Memory>
        ensures { IfOk result (λ s. s ≡ self.now) }
    {
        match &self.kept {
            Kept::Blank(format) => Ok(CellState::blank(*format)),
            Kept::Number(format, number) => Ok(CellState::number(*number, *format)),
            Kept::Formula(format, computed) => {
                CellState::formula(computed.formula.copy()?, computed.value.copy()?, *format)
            }
            Kept::In13(format, prefix, text) => copied(alloc, *prefix, text.bytes(), *format),
            Kept::In22(format, prefix, text) => copied(alloc, *prefix, text.bytes(), *format),
            Kept::In55(format, prefix, text) => copied(alloc, *prefix, text.bytes(), *format),
            Kept::In119(format, prefix, text) => copied(alloc, *prefix, text.bytes(), *format),
            Kept::In183(format, prefix, text) => copied(alloc, *prefix, text.bytes(), *format),
            Kept::In240(format, prefix, text) => copied(alloc, *prefix, text.bytes(), *format),
        }
    }
}
