// What a byte of code stands for.
ghost use Rattle.std.specs.Prelude.{◌≡◌};
ghost use Rattle.wk1_formula.specs.Kinds.{front_kind, is_left_out, kind_of, op_code, operator_of};

use crate::function_codes::function_of;
use crate::opcodes;
use formula_tree::{Function, Op};

/// What a byte of code stands for.
#[derive(Clone, Copy)]
pub enum CodeKind {
    Double,
    Reference,
    Range,
    Finish,
    Brackets,
    Short,
    Text,
    Minus,
    Not,
    Plus,
    Operator(Op),
    Function(Function),
    LeftOut,
    Unknown,
}

// The functions of 1-2-3 that this program leaves out.
const LEFT_OUT: [u8; 31] = [
    opcodes::SQRT,
    opcodes::LOG,
    opcodes::LN,
    opcodes::PI,
    opcodes::SIN,
    opcodes::COS,
    opcodes::TAN,
    opcodes::ATAN2,
    opcodes::ATAN,
    opcodes::ASIN,
    opcodes::ACOS,
    opcodes::EXP,
    opcodes::RAND,
    opcodes::PMT,
    opcodes::PV,
    opcodes::FV,
    opcodes::NPV,
    opcodes::VAR,
    opcodes::STD,
    opcodes::IRR,
    opcodes::DVAR,
    opcodes::DSTD,
    opcodes::S,
    opcodes::N,
    opcodes::ADD_IN,
    opcodes::RATE,
    opcodes::TERM,
    opcodes::CTERM,
    opcodes::SLN,
    opcodes::SYD,
    opcodes::DDB,
];

// The operator of a code.
#[tactic(auto, unfolding(crate::specs::Kinds::operator_of))]
fn operator_of(code: u8) -> Option<Op>
    ensures { result ≡ operator_of code }
{
    if code == opcodes::ADD {
        Some(Op::Add)
    } else if code == opcodes::SUBTRACT {
        Some(Op::Sub)
    } else if code == opcodes::MULTIPLY {
        Some(Op::Mul)
    } else if code == opcodes::DIVIDE {
        Some(Op::Div)
    } else if code == opcodes::POWER {
        Some(Op::Pow)
    } else if code == opcodes::EQUAL {
        Some(Op::Eq)
    } else if code == opcodes::UNEQUAL {
        Some(Op::Ne)
    } else if code == opcodes::AT_MOST {
        Some(Op::Le)
    } else if code == opcodes::AT_LEAST {
        Some(Op::Ge)
    } else if code == opcodes::LESS {
        Some(Op::Lt)
    } else if code == opcodes::GREATER {
        Some(Op::Gt)
    } else if code == opcodes::AND {
        Some(Op::And)
    } else if code == opcodes::OR {
        Some(Op::Or)
    } else if code == opcodes::JOIN {
        Some(Op::Join)
    } else {
        None
    }
}

/// The code of an operator.
pub fn op_code(op: Op) -> u8
    ensures { result ≡ op_code op }
{
    match op {
        Op::Add => opcodes::ADD,
        Op::Sub => opcodes::SUBTRACT,
        Op::Mul => opcodes::MULTIPLY,
        Op::Div => opcodes::DIVIDE,
        Op::Pow => opcodes::POWER,
        Op::Eq => opcodes::EQUAL,
        Op::Ne => opcodes::UNEQUAL,
        Op::Le => opcodes::AT_MOST,
        Op::Ge => opcodes::AT_LEAST,
        Op::Lt => opcodes::LESS,
        Op::Gt => opcodes::GREATER,
        Op::And => opcodes::AND,
        Op::Or => opcodes::OR,
        Op::Join => opcodes::JOIN,
    }
}

// Whether a code is a function that is left out.
fn is_left_out(code: u8) -> bool
    ensures { result ≡ is_left_out code }
{
    LEFT_OUT.contains(&code)
}

// The kind of a code that is no operator and no function.
#[tactic(auto, unfolding(crate::specs::Kinds::front_kind))]
fn front_kind(code: u8) -> CodeKind
    ensures { result ≡ front_kind code }
{
    if code == opcodes::DOUBLE {
        CodeKind::Double
    } else if code == opcodes::REFERENCE {
        CodeKind::Reference
    } else if code == opcodes::RANGE {
        CodeKind::Range
    } else if code == opcodes::FINISH {
        CodeKind::Finish
    } else if code == opcodes::BRACKETS {
        CodeKind::Brackets
    } else if code == opcodes::SHORT {
        CodeKind::Short
    } else if code == opcodes::TEXT {
        CodeKind::Text
    } else if code == opcodes::MINUS {
        CodeKind::Minus
    } else if code == opcodes::NOT {
        CodeKind::Not
    } else if code == opcodes::PLUS {
        CodeKind::Plus
    } else {
        CodeKind::Unknown
    }
}

/// What a byte of code stands for.
#[tactic(auto, unfolding(crate::specs::Kinds::kind_of))]
pub fn kind_of(code: u8) -> CodeKind
    ensures { result ≡ kind_of code }
{
    match operator_of(code) {
        Some(op) => CodeKind::Operator(op),
        None => match function_of(code) {
            Some(function) => CodeKind::Function(function),
            None => {
                if is_left_out(code) {
                    CodeKind::LeftOut
                } else {
                    front_kind(code)
                }
            }
        },
    }
}
