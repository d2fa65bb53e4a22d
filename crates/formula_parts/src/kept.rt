// What evaluations keep for those behind them.
ghost use Rattle.std.specs.Prelude.{◌≡◌, ◌≤◌, ◌<◌, ◌∷◌, [], IfSome, IsSome, Some, false, true};
ghost use Rattle.grid_address.specs.Place.{height_of, is_within, same_place, width_of, Place};
ghost use Rattle.formula_tree.specs.declared.value.Value.{Value};
ghost use Rattle.formula_tree.specs.declared.value.Value.TheVariants as value;
ghost use Rattle.formula_parts.specs.inner.Kept.{AreFound, IsKept, IsRising, IsRunning};
ghost use Rattle.formula_parts.specs.declared.items.Item.TheVariants as item;
ghost use Rattle.formula_parts.specs.Lists.{in_range, items_in, list_value};
ghost use Rattle.formula_parts.specs.Lookups.{by_number};
ghost use Rattle.formula_parts.specs.Outlook.{cells_of, filled, Sight};
ghost use Rattle.formula_parts.specs.inner.Totals.{so_far, IsTotal};

use crate::items::Item;
use crate::look::Look;
use crate::rising::{number_beside, rises};
use crate::totals::{Total, add_item, add_rest, nothing, number_for};
use fixed_value::Fixed;
use formula_tree::Function;
use grid_address::{Cell, Span};

/// A range with its total.
#[derive(Clone, Copy)]
pub struct Running {
    span: Span,
    total: Total,
}

// The totals of the ranges that were added up last, from which those of ranges with more rows go on: two, so that two
// columns may run side by side. And the column that was found last to rise, in which lookups go by halves, and the one
// that was found not to.
#[derive(Clone, Copy)]
struct Findings {
    last: Option<Running>,
    before: Option<Running>,
    rising: Option<Span>,
    uneven: Option<Span>,
}

impl Findings {
    // Nothing was found.
    fn none() -> Findings
        ensures { (values : Place → Value) → AreFound values result }
    {
        Findings {
            last: None,
            before: None,
            rising: None,
            uneven: None,
        }
    }

    // Whether one of them hangs on the value of a cell.
    fn hang_on(&self, cell: Cell) -> bool
        ensures last { result ≡ false → IfSome self.now.last (λ r. is_within r.span cell ≡ false) }
        ensures before { result ≡ false → IfSome self.now.before (λ r. is_within r.span cell ≡ false) }
        ensures rising { result ≡ false → IfSome self.now.rising (λ s. is_within s cell ≡ false) }
    {
        is_added(&self.last, cell)
            || is_added(&self.before, cell)
            || lies_in(&self.rising, cell)
            || lies_in(&self.uneven, cell)
    }

    // Those that don't hang on the value of a cell, which changes.
    fn without(self, cell: Cell) -> Findings
        ensures { (values others : Place → Value) → AreFound values self →
            ((c : Place) → same_place c cell ≡ false → others c ≡ values c) → AreFound others result }
    {
        let last = without(self.last, cell);
        let before = without(self.before, cell);
        let rising = beside(self.rising, cell);
        let uneven = beside(self.uneven, cell);
        Findings {
            last,
            before,
            rising,
            uneven,
        }
    }

    // Those that go on where a cell that was blank takes a value that counts for a number: the total of a range in
    // which it lies takes it too.
    fn filled(self, cell: Cell, number: Fixed) -> Findings
        ensures { (values others : Place → Value) → AreFound values self → values cell ≡ value.Blank →
            in_range (others cell) ≡ item.Is number ∷ [] →
            ((c : Place) → same_place c cell ≡ false → others c ≡ values c) → AreFound others result }
    {
        let last = grown(self.last, cell, number);
        let before = grown(self.before, cell, number);
        let apart = self.without(cell);
        Findings {
            last,
            before,
            ..apart
        }
    }

    // The total of the first rows of a range, so many of them.
    fn begun(&self, span: Span) -> (Total, u16)
        ensures rows { result.1 ≤ height_of span }
        ensures total { (values : Place → Value) → AreFound values self.now →
            IsTotal result.0 (so_far values span result.1) }
    {
        if let Some(begun) = first_rows(self.last, span) {
            return begun;
        }
        match first_rows(self.before, span) {
            Some(begun) => begun,
            None => (nothing(), 0),
        }
    }

    // Keeps the total of a range in place of the one that it goes on from, or else of the older one.
    fn keep(&mut self, span: Span, total: Total)
        ensures { (values : Place → Value) → AreFound values self.old →
            IsTotal total (items_in values (cells_of span)) → AreFound values self.new }
    {
        if let None = first_rows(self.last, span) {
            self.before = self.last;
        }
        self.last = Some(Running { span, total });
    }

    // Whether the first column of a range rises, which is found once for many lookups.
    fn is_rising<K: Look>(&mut self, span: Span, look: &K) -> bool
        requires { AreFound (K.sight look.now).values self.old }
        ensures rising { result ≡ true → IsRising (K.sight look.now).values span }
        ensures found { AreFound (K.sight look.now).values self.new }
    {
        if is_part(span, self.rising) {
            return true;
        }
        let column = first_column(span);
        if is_part(column, self.uneven) {
            return false;
        }
        let found = rises(column, look);
        if found {
            self.rising = Some(column);
        } else {
            self.uneven = Some(column);
        }
        found
    }
}

/// What evaluations found that those behind them may use. Where no function of a list and no lookup was evaluated, it
/// is nothing, and costs a test.
#[derive(Clone, Copy)]
pub struct Kept {
    findings: Option<Findings>,
}

impl Kept {
    /// Nothing is kept.
    pub fn new() -> Kept
        ensures { (values : Place → Value) → IsKept result values }
    {
        Kept { findings: None }
    }

    /// Lets go what hangs on the value of a cell, which changes. Where nothing is kept, that is a test alone.
    pub fn forget(&mut self, cell: Cell)
        ensures { (values others : Place → Value) → IsKept self.old values →
            ((c : Place) → same_place c cell ≡ false → others c ≡ values c) → IsKept self.new others }
    {
        match &self.findings {
            Some(_) => self.let_go(cell),
            None => {}
        }
    }

    // The same, out of line: it takes much room on the stack.
    #[inline(never)]
    fn let_go(&mut self, cell: Cell)
        ensures { (values others : Place → Value) → IsKept self.old values →
            ((c : Place) → same_place c cell ≡ false → others c ≡ values c) → IsKept self.new others }
    {
        let Some(findings) = &self.findings else {
            return;
        };
        if !findings.hang_on(cell) {
            return;
        }
        self.findings = Some(findings.without(cell));
    }

    /// Whether it is known that nothing is kept.
    #[inline(always)]
    pub fn is_nothing(&self) -> bool
        ensures { result ≡ true → (values : Place → Value) → IsKept self.now values }
    {
        match &self.findings {
            Some(_) => false,
            None => true,
        }
    }

    /// Whether something hangs on the value of a cell.
    pub fn hangs_on(&self, cell: Cell) -> bool
        ensures { result ≡ false → (values others : Place → Value) → IsKept self.now values →
            ((c : Place) → same_place c cell ≡ false → others c ≡ values c) → IsKept self.now others }
    {
        match &self.findings {
            Some(findings) => findings.hang_on(cell),
            None => false,
        }
    }

    /// A cell that was blank takes a value that counts for a number. The totals of the ranges in which it lies go on
    /// with it.
    pub fn fill(&mut self, cell: Cell, number: Fixed)
        ensures { (values others : Place → Value) → IsKept self.old values → values cell ≡ value.Blank →
            in_range (others cell) ≡ item.Is number ∷ [] →
            ((c : Place) → same_place c cell ≡ false → others c ≡ values c) → IsKept self.new others }
    {
        let Some(findings) = &self.findings else {
            return;
        };
        if !findings.hang_on(cell) {
            return;
        }
        self.findings = Some(findings.filled(cell, number));
    }

    // What is kept, as findings.
    fn findings(&self) -> Findings
        ensures { (values : Place → Value) → IsKept self.now values → AreFound values result }
    {
        match self.findings {
            Some(findings) => findings,
            None => Findings::none(),
        }
    }

    /// SUM, AVG, COUNT, MIN and MAX over a range; none where the value is no number, or where it is found otherwise.
    pub fn range_number<K: Look>(
        &mut self,
        function: Function,
        span: Span,
        look: &K,
    ) -> Option<Fixed>
        requires { IsKept self.old (K.sight look.now).values }
        ensures number { let values = (K.sight look.now).values in
            IfSome result (λ n. list_value function (items_in values (filled values span)) ≡ value.Num n) }
        ensures kept { IsKept self.new (K.sight look.now).values }
    {
        let mut findings = self.findings();
        let (begun, rows) = findings.begun(span);
        let mut total = begun;
        if !add_rest(&mut total, span, rows, look) {
            return None;
        }
        findings.keep(span, total);
        self.findings = Some(findings);
        number_for(function, &total)
    }

    /// VLOOKUP of a number at a place of a range; none where the value is no number, or where it is found otherwise.
    pub fn lookup_number<K: Look>(
        &mut self,
        span: Span,
        place: u16,
        x: Fixed,
        look: &K,
    ) -> Option<Fixed>
        requires kept { IsKept self.old (K.sight look.now).values }
        requires place { place < width_of span }
        ensures number { IfSome result
            (λ n. by_number (K.sight look.now).values false span place x ≡ value.Num n) }
        ensures kept { IsKept self.new (K.sight look.now).values }
    {
        let mut findings = self.findings();
        let is_rising = findings.is_rising(span, look);
        self.findings = Some(findings);
        if is_rising {
            number_beside(span, place, x, look)
        } else {
            None
        }
    }
}

// Whether a cell lies in a range that was added up.
fn is_added(running: &Option<Running>, cell: Cell) -> bool
    ensures { result ≡ false → IfSome running.now (λ r. is_within r.span cell ≡ false) }
{
    match running {
        Some(running) => running.span.contains(cell),
        None => false,
    }
}

// Whether a cell lies in a column that is kept.
fn lies_in(column: &Option<Span>, cell: Cell) -> bool
    ensures { result ≡ false → IfSome column.now (λ s. is_within s cell ≡ false) }
{
    match column {
        Some(column) => column.contains(cell),
        None => false,
    }
}

// A column that is kept, unless the cell lies in it.
fn beside(column: Option<Span>, cell: Cell) -> Option<Span>
    ensures { IfSome result (λ s. (column ≡ Some s) × (is_within s cell ≡ false)) }
{
    let column = column?;
    if column.contains(cell) {
        return None;
    }
    Some(column)
}

// The first column of a range.
fn first_column(span: Span) -> Span
    ensures { result ≡ record span { last = record { row = span.last.row; col = span.first.col } } }
{
    Span {
        first: span.first,
        last: Cell {
            row: span.last.row,
            col: span.first.col,
        },
    }
}

// Whether the first column of a range is the first rows of a column that is kept.
fn is_part(span: Span, column: Option<Span>) -> bool
    ensures rows { result ≡ true → IfSome column (λ s. height_of span ≤ height_of s) }
    ensures some { result ≡ true → IsSome column }
    ensures row { result ≡ true → IfSome column (λ s. span.first.row ≡ s.first.row) }
    ensures col { result ≡ true → IfSome column (λ s. span.first.col ≡ s.first.col) }
{
    match column {
        Some(column) => {
            span.first.row == column.first.row
                && span.first.col == column.first.col
                && span.last.row <= column.last.row
        }
        None => false,
    }
}

// What is kept, unless it hangs on a cell.
fn without(running: Option<Running>, cell: Cell) -> Option<Running>
    ensures { (values others : Place → Value) → IfSome running (IsRunning values) →
        ((c : Place) → same_place c cell ≡ false → others c ≡ values c) → IfSome result (IsRunning others) }
{
    let running = running?;
    if running.span.contains(cell) {
        return None;
    }
    Some(running)
}

// A total, with the number that a blank cell takes, where that lies in its range.
fn grown(running: Option<Running>, cell: Cell, number: Fixed) -> Option<Running>
    ensures { (values others : Place → Value) → IfSome running (IsRunning values) → values cell ≡ value.Blank →
        in_range (others cell) ≡ item.Is number ∷ [] →
        ((c : Place) → same_place c cell ≡ false → others c ≡ values c) → IfSome result (IsRunning others) }
{
    let running = running?;
    let span = running.span;
    if !span.contains(cell) {
        return Some(running);
    }
    let mut total = running.total;
    if !add_item(&mut total, Item::Is(number)) {
        return None;
    }
    Some(Running { span, total })
}

// Whether a range is the first rows of another.
fn begins(part: Span, span: Span) -> bool
    ensures rows { result ≡ true → height_of part ≤ height_of span }
    ensures row { result ≡ true → part.first.row ≡ span.first.row }
    ensures col { result ≡ true → part.first.col ≡ span.first.col }
    ensures width { result ≡ true → width_of part ≡ width_of span }
{
    part.first.row == span.first.row
        && part.first.col == span.first.col
        && part.last.col == span.last.col
        && part.last.row <= span.last.row
}

// The total that is kept, with how many rows it is of, where these are the first rows of a range.
fn first_rows(running: Option<Running>, span: Span) -> Option<(Total, u16)>
    ensures rows { IfSome result (λ r. r.1 ≤ height_of span) }
    ensures total { IfSome result (λ r. (values : Place → Value) → IfSome running (IsRunning values) →
        IsTotal r.0 (so_far values span r.1)) }
{
    let running = running?;
    if begins(running.span, span) {
        Some((running.total, running.span.height()))
    } else {
        None
    }
}
