// The parts of a text.

use crate::ParseFault;
use fixed_value::Fixed;
use formula_tree::{Function, Op};
use grid_address::Ref;
use lics_text::Text;

// What a part is. `Constant` is a function without arguments, `Unclosed` a text without its last quote, and `Bad`
// what may stand nowhere.
#[derive(Drop)]
pub enum LexemeKind {
    Num(Fixed),
    Str(Text),
    Cell(Ref),
    Span(Ref, Ref),
    Constant(Function),
    Function(Function),
    Infix(Op),
    Not,
    Open,
    Close,
    Comma,
    Unclosed,
    Bad(ParseFault),
}

// A part, and where it begins.
#[derive(Drop)]
pub struct Lexeme {
    pub at: usize,
    pub kind: LexemeKind,
}

// A part, and how many bytes it takes.
#[derive(Drop)]
pub struct Found {
    pub kind: LexemeKind,
    pub len: usize,
}
