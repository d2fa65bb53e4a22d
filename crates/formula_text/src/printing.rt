// From a formula to its text.
ghost use Rattle.std.specs.Prelude.{Ok, ◌≡◌, IfSome, IfNone, Some, None, nat_le, length, map, take, ◌++◌, [], true, codes};
ghost use Rattle.formula_tree.specs.View.{tree_of};
ghost use Rattle.grid_address.specs.Axes.{is_fixed};
ghost use Rattle.formula_text.specs.Reading.{reading};
ghost use Rattle.formula_text.specs.Printed.{alike, cell_text, in_order, mark, name_of_cell, name_of_corners, op_text, printed, reference_text, same, sign_for, span_text, text_of};
ghost use Rattle.formula_text.specs.inner.Calls.{call_text, end_of};
ghost use Rattle.formula_text.specs.inner.Puts.{Puts};

use crate::functions::name_of;
use crate::output::{Output, write};
use crate::sink::{Sink, put};
use fixed_value::write_short;
use formula_tree::{Expr, ExprList, Formula, Function, Op};
use grid_address::{Axis, Cell, Ref, Span, column_text, row_text};
use lics_text::{Line, MAX_LEN};
use range_names::Names;

// Whether a coordinate is fixed.
fn is_fixed(axis: Axis) -> bool
    ensures { result ≡ is_fixed axis }
{
    match axis {
        Axis::Fixed(_) => true,
        Axis::Offset(_) => false,
    }
}

// Writes $ in front of a fixed coordinate.
fn put_mark<S: Sink>(fixed: bool, out: &mut S)
    ensures { Puts S.has_put out.old (mark fixed) out.new }
{
    if fixed {
        put(out, b"$");
    } else {
        put(out, b"");
    }
}

// Writes the address of a reference.
fn put_reference<S: Sink>(reference: Ref, at: Cell, out: &mut S)
    ensures { Puts S.has_put out.old (reference_text at reference) out.new }
{
    let cell = reference.resolve(at);
    put_mark(is_fixed(reference.col), out);
    put(out, column_text(cell.col).bytes());
    put_mark(is_fixed(reference.row), out);
    put(out, row_text(cell.row).bytes());
}

// Whether both are true, or both false.
fn same(one: bool, other: bool) -> bool
    ensures { result ≡ same one other }
{
    if one { other } else { !other }
}

// Whether all coordinates are absolute, or all relative.
fn alike(one: Ref, other: Ref) -> bool
    ensures { result ≡ alike one other }
{
    let fixed = is_fixed(one.col);
    same(is_fixed(one.row), fixed)
        && same(is_fixed(other.col), fixed)
        && same(is_fixed(other.row), fixed)
}

// The name of the cell that a reference leads to, where its coordinates are alike.
fn name_of_cell(reference: Ref, at: Cell, names: &Names) -> Option<&[u8]>
    ensures some { IfSome result (λ name. name_of_cell names.now at reference ≡ Some name.now) }
    ensures none { IfNone result (name_of_cell names.now at reference ≡ None) }
{
    if alike(reference, reference) {
        let cell = reference.resolve(at);
        names.of_span(Span::of(cell, cell))
    } else {
        None
    }
}

// Writes a reference: its cell's name, or else its address.
fn put_cell<S: Sink>(reference: Ref, at: Cell, names: &Names, out: &mut S)
    ensures { Puts S.has_put out.old (cell_text names.now at reference) out.new }
{
    match name_of_cell(reference, at, names) {
        Some(name) => {
            put_mark(is_fixed(reference.col), out);
            put(out, name);
        }
        None => put_reference(reference, at, out),
    }
}

// Whether two cells are the corners of more than one cell, the first at the top left.
fn in_order(first: Cell, last: Cell) -> bool
    ensures { result ≡ in_order first last }
{
    first.row <= last.row && first.col <= last.col && first != last
}

// The name of the span between two corners, where all coordinates are alike and the corners in order.
fn name_of_corners(one: Ref, other: Ref, at: Cell, names: &Names) -> Option<&[u8]>
    ensures some { IfSome result (λ name. name_of_corners names.now at one other ≡ Some name.now) }
    ensures none { IfNone result (name_of_corners names.now at one other ≡ None) }
{
    let first = one.resolve(at);
    let last = other.resolve(at);
    if alike(one, other) && in_order(first, last) {
        names.of_span(Span::of(first, last))
    } else {
        None
    }
}

// Writes the addresses of two corners.
fn put_corners<S: Sink>(one: Ref, other: Ref, at: Cell, out: &mut S)
    ensures { Puts S.has_put out.old (reference_text at one ++ (codes ".." ++ reference_text at other)) out.new }
{
    put_reference(one, at, out);
    put(out, b"..");
    put_reference(other, at, out);
}

// Writes a span: its name, or else its corners.
fn put_span<S: Sink>(one: Ref, other: Ref, at: Cell, names: &Names, out: &mut S)
    ensures { Puts S.has_put out.old (span_text names.now at one other) out.new }
{
    match name_of_corners(one, other, at, names) {
        Some(name) => {
            put_mark(is_fixed(one.col), out);
            put(out, name);
        }
        None => put_corners(one, other, at, out),
    }
}

// How an operator is written.
fn op_text(op: Op) -> &'static [u8]
    ensures { result.now ≡ op_text op }
{
    match op {
        Op::Pow => b"^",
        Op::Mul => b"*",
        Op::Div => b"/",
        Op::Add => b"+",
        Op::Sub => b"-",
        Op::Eq => b"=",
        Op::Ne => b"<>",
        Op::Lt => b"<",
        Op::Gt => b">",
        Op::Le => b"<=",
        Op::Ge => b">=",
        Op::And => b"#AND#",
        Op::Or => b"#OR#",
        Op::Join => b"&",
    }
}

// The bracket behind arguments, where there are any.
fn end_of(arguments: &[Expr]) -> &'static [u8]
    ensures { result.now ≡ end_of (map tree_of arguments.now) }
{
    if arguments.len() == 0 { b"" } else { b")" }
}

// A function, and its arguments where it has any.
#[cycle(print)]
fn put_call<S: Sink>(function: Function, arguments: &[Expr], at: Cell, names: &Names, out: &mut S)
    ensures { Puts S.has_put out.old (call_text names.now at function (map tree_of arguments.now)) out.new }
{
    put(out, b"@");
    put(out, name_of(function));
    let mut mark: &[u8] = b"(";
    for argument in arguments {
        put(out, mark);
        put_tree(argument, at, names, out);
        mark = b",";
    }
    put(out, end_of(arguments));
}

// Writes a tree.
#[cycle(print)]
pub fn put_tree<S: Sink>(expr: &Expr, at: Cell, names: &Names, out: &mut S)
    ensures { Puts S.has_put out.old (text_of names.now at (tree_of expr.now)) out.new }
{
    match expr {
        Expr::Num(value) => put(out, write_short(*value, 6).bytes()),
        Expr::Str(text) => {
            put(out, b"\"");
            put(out, text.bytes());
            put(out, b"\"");
        }
        Expr::Cell(one) => put_cell(*one, at, names, out),
        Expr::Span(one, other) => put_span(*one, *other, at, names, out),
        Expr::Group(inner) => {
            put(out, b"(");
            put_tree(inner, at, names, out);
            put(out, b")");
        }
        Expr::Neg(inner) => {
            put(out, b"-");
            put_tree(inner, at, names, out);
        }
        Expr::Not(inner) => {
            put(out, b"#NOT#");
            put_tree(inner, at, names, out);
        }
        Expr::Binary(op, left, right) => {
            put_tree(left, at, names, out);
            put(out, op_text(*op));
            put_tree(right, at, names, out);
        }
        Expr::Call(function, arguments) => {
            put_call(*function, arguments.items(), at, names, out);
        }
    }
}

// The sign before a text that would begin a label.
pub fn sign_for(text: &[u8]) -> &'static [u8]
    ensures { result.now ≡ sign_for text.now }
{
    if 0 < text.len() && (text[0].is_ascii_alphabetic() || text[0] == b'"') {
        b"+"
    } else {
        b""
    }
}

// Nothing is written yet.
fn nothing() -> Output
    ensures line { result.line ≡ [] }
    ensures whole { result.whole ≡ true }
{
    Output {
        line: Line::new(),
        whole: true,
    }
}

// The text of a tree.
fn text_of(expr: &Expr, at: Cell, names: &Names) -> Output
    ensures line { result.line ≡ take MAX_LEN (text_of names.now at (tree_of expr.now)) }
    ensures whole { result.whole ≡ nat_le (length (text_of names.now at (tree_of expr.now))) MAX_LEN }
{
    let mut out = nothing();
    put_tree(expr, at, names, &mut out);
    out
}

// A text behind its sign.
fn signed(text: &[u8]) -> Output
    ensures line { result.line ≡ take MAX_LEN (sign_for text.now ++ text.now) }
    ensures whole { result.whole ≡ nat_le (length (sign_for text.now ++ text.now)) MAX_LEN }
{
    let mut out = nothing();
    write(&mut out, sign_for(text));
    write(&mut out, text);
    out
}

/// Writes the text of a formula that stands in the cell, with these names: its tokens without spaces, letters in
/// capitals, two dots in spans, `,` between arguments, and numbers with as many decimals as they need. A cell or a
/// span whose coordinates are all relative or all absolute is written as the first of its names that is a word and no
/// address. A `+` stands in front where the text would begin with a letter or a quote. The first 240 bytes are written
/// into the line, which is empty before, and the answer tells whether that is all; then the text is read as the
/// formula. (Release 2 manual; the order of names is this project's choice.)
pub fn print(formula: &Formula, at: Cell, names: &Names, into: &mut Line) -> bool
    requires { into.old ≡ [] }
    ensures line { into.new ≡ take MAX_LEN (printed names.now at formula.now) }
    ensures whole { result ≡ nat_le (length (printed names.now at formula.now)) MAX_LEN }
    ensures again { result ≡ true → reading names.now at into.new ≡ Ok formula.now }
{
    at.is_on_sheet();
    names.are_keyed();
    let text = text_of(formula.expr(), at, names);
    let out = signed(text.line.bytes());
    into.put_all(out.line.bytes());
    out.whole && text.whole
}
