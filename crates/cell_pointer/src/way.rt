// The ways in which the pointer moves.

/// An arrow.
#[derive(Clone, Copy)]
pub enum Arrow {
    Up,
    Down,
    Left,
    Right,
}

/// Where a key moves the pointer.
#[derive(Clone, Copy)]
pub enum Way {
    /// It stays.
    Stay,
    /// By one cell.
    Step(Arrow),
    /// To the end of a run of filled cells, or to the next filled cell, or to the edge: END and an arrow.
    Run(Arrow),
    /// Twenty rows up.
    PageUp,
    /// Twenty rows down.
    PageDown,
    /// As many columns to the left as are shown.
    WindowLeft,
    /// As many columns to the right as are shown.
    WindowRight,
    /// To A1.
    Home,
    /// To the last used row and column: END and HOME.
    LastUsed,
}
