// What a key may have touched of the sheet.
ghost use Rattle.std.specs.Prelude.{◌≡◌, ℕ, false, true};
ghost use Rattle.macro_engine.specs.RowSpans.{is_in};
ghost use Rattle.work_sheet.specs.Seen.{Sheet};
ghost use Rattle.session_core.specs.inner.Touches.{is_row_in, AreTouched, Touches};

use crate::rows::{insert_row, insert_rows};
use macro_engine::RowSpan;
use screen_show::LineSet;

/// What a key may have touched of the sheet: nothing, the pointer's place, beside it the cells of the rows that these
/// lines showed before and of those that weren't shown, or anything.
#[derive(Drop)]
pub enum Touched {
    Nothing,
    Pointer,
    Rows(LineSet),
    Anything,
}

impl Touched {
    // Whether nothing was touched.
    pub(crate) fn is_nothing(&self) -> bool
        ensures { result ≡ true → self.now ≡ Touched.Nothing }
    {
        match self {
            Touched::Nothing => true,
            Touched::Pointer | Touched::Rows(_) | Touched::Anything => false,
        }
    }

    // Whether anything may have been touched.
    pub(crate) fn is_anything(&self) -> bool
        ensures { result ≡ false → self.now ≡ Touched.Anything → ⊥ }
    {
        match self {
            Touched::Anything => true,
            Touched::Nothing | Touched::Pointer | Touched::Rows(_) => false,
        }
    }
}

// The lines of rows, where the screen shows rows from one on.
#[tactic(auto, using(crate::proofs::ShownRows::all_in, crate::proofs::ShownRows::one_in))]
fn lines_of(rows: RowSpan, first: u16) -> LineSet
    ensures { (k : ℕ) → is_in rows k ≡ true → is_row_in result first k ≡ true }
{
    let mut lines = LineSet::none();
    if rows.first == rows.last {
        insert_row(rows.first, first, &mut lines);
        return lines;
    }
    insert_rows(&mut lines);
    lines
}

impl Touched {
    // What a macro's step touched that left the sheet, or told rows or none, where the screen shows rows from one on.
    pub(crate) fn by_step(is_left: bool, rows: Option<RowSpan>, first: u16) -> Touched
        ensures left { is_left ≡ true → result ≡ Touched.Nothing }
        ensures worked { is_left ≡ false → AreTouched rows first result }
    {
        if is_left {
            return Touched::Nothing;
        }
        match rows {
            Some(rows) => Touched::Rows(lines_of(rows, first)),
            None => Touched::Anything,
        }
    }
}

/// What an event came to: what it may have touched of the sheet, and whether the run ends.
#[derive(Drop)]
pub struct Taken {
    pub touched: Touched,
    pub ends: bool,
}

impl Taken {
    // The same behind a step that touched this.
    #[tactic(auto, using(crate::proofs::Touching::touches_alone, crate::proofs::Touching::touches_before))]
    pub(crate) fn behind(self, step: Touched) -> Taken
        ensures ends { result.ends ≡ self.ends }
        ensures both { (first : ℕ) → (s : Sheet) → (m : Sheet) → (t : Sheet) →
            Touches step first s m → Touches self.touched first m t → Touches result.touched first s t }
    {
        let Taken { touched, ends } = self;
        if step.is_nothing() {
            return Taken { touched, ends };
        }
        if touched.is_nothing() {
            return Taken {
                touched: step,
                ends,
            };
        }
        Taken {
            touched: Touched::Anything,
            ends,
        }
    }
}
