// What cells hold, and their values.
ghost use Rattle.std.specs.Prelude.{◌≡◌, IfOk};
ghost use Rattle.formula_tree.specs.Seen.{seen_content, seen_value};
ghost use Rattle.formula_tree.specs.Values.{is_filled};

use crate::Formula;
use fixed_value::Fixed;
use lics_text::{LabelPrefix, Memory, Text, TextRef};

/// A cell's value. A formula's value is never blank.
#[derive(Drop)]
pub enum Value {
    Blank,
    Num(Fixed),
    Str(Text),
    Err,
    Na,
}

impl Value {
    /// Whether it isn't blank.
    pub fn is_filled(&self) -> bool
        ensures { result ≡ is_filled self.now }
    {
        match self {
            Value::Blank => false,
            Value::Num(_) | Value::Str(_) | Value::Err | Value::Na => true,
        }
    }

    /// An equal value.
    pub fn copy(&self) -> Result<Value, Memory>
        ensures { IfOk result (λ v. v ≡ self.now) }
    {
        match self {
            Value::Blank => Ok(Value::Blank),
            Value::Num(number) => Ok(Value::Num(*number)),
            Value::Str(text) => Ok(Value::Str(text.copy()?)),
            Value::Err => Ok(Value::Err),
            Value::Na => Ok(Value::Na),
        }
    }

    /// The value, to be looked at.
    #[inline(always)]
    pub fn as_ref(&self) -> ValueRef<'_>
        ensures { seen_value result ≡ self.now }
    {
        match self {
            Value::Blank => ValueRef::Blank,
            Value::Num(number) => ValueRef::Num(*number),
            Value::Str(text) => ValueRef::Str(TextRef::Text(text)),
            Value::Err => ValueRef::Err,
            Value::Na => ValueRef::Na,
        }
    }
}

/// A value that is looked at, however it is kept.
#[derive(Clone, Copy)]
pub enum ValueRef<'a> {
    Blank,
    Num(Fixed),
    Str(TextRef<'a>),
    Err,
    Na,
}

impl<'a> ValueRef<'a> {
    /// Whether it isn't blank.
    pub fn is_filled(&self) -> bool
        ensures { result ≡ is_filled (seen_value self.now) }
    {
        match self {
            ValueRef::Blank => false,
            ValueRef::Num(_) | ValueRef::Str(_) | ValueRef::Err | ValueRef::Na => true,
        }
    }

    /// The value itself, in memory of its own.
    pub fn copy(&self) -> Result<Value, Memory>
        ensures { IfOk result (λ v. v ≡ seen_value self.now) }
    {
        match self {
            ValueRef::Blank => Ok(Value::Blank),
            ValueRef::Num(number) => Ok(Value::Num(*number)),
            ValueRef::Str(text) => Ok(Value::Str(text.copy()?)),
            ValueRef::Err => Ok(Value::Err),
            ValueRef::Na => Ok(Value::Na),
        }
    }
}

/// What a cell holds: nothing, a number, a label with its prefix and the text behind it, or a formula.
#[derive(Drop)]
pub enum Content {
    Blank,
    Number(Fixed),
    Label(LabelPrefix, Text),
    Formula(Formula),
}

impl Content {
    /// An equal content.
    #[inline(always)]
    pub fn copy(&self) -> Result<Content, Memory>
        ensures { IfOk result (λ c. c ≡ self.now) }
    {
        match self {
            Content::Blank => Ok(Content::Blank),
            Content::Number(number) => Ok(Content::Number(*number)),
            Content::Label(prefix, text) => Ok(Content::Label(*prefix, text.copy()?)),
            Content::Formula(formula) => Ok(Content::Formula(formula.copy()?)),
        }
    }

    /// The content, to be looked at.
    pub fn as_ref(&self) -> ContentRef<'_>
        ensures { seen_content result ≡ self.now }
    {
        match self {
            Content::Blank => ContentRef::Blank,
            Content::Number(number) => ContentRef::Number(*number),
            Content::Label(prefix, text) => ContentRef::Label(*prefix, TextRef::Text(text)),
            Content::Formula(formula) => ContentRef::Formula(formula),
        }
    }
}

/// A content that is looked at, however it is kept.
#[derive(Clone, Copy)]
pub enum ContentRef<'a> {
    Blank,
    Number(Fixed),
    Label(LabelPrefix, TextRef<'a>),
    Formula(&'a Formula),
}

impl<'a> ContentRef<'a> {
    /// The content itself. A formula is shared with the one that is looked at.
    #[inline(always)]
    pub fn copy(&self) -> Result<Content, Memory>
        ensures { IfOk result (λ c. c ≡ seen_content self.now) }
    {
        match self {
            ContentRef::Blank => Ok(Content::Blank),
            ContentRef::Number(number) => Ok(Content::Number(*number)),
            ContentRef::Label(prefix, text) => Ok(Content::Label(*prefix, text.copy()?)),
            ContentRef::Formula(formula) => Ok(Content::Formula(formula.copy()?)),
        }
    }
}
