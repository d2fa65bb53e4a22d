// What is saved is read.
ghost use Rattle.std.specs.FinMap as finite;
ghost use Rattle.std.specs.List.{AllByRecursion};
ghost use Rattle.std.specs.Prelude.{◌≡◌, ◌++◌, ◌∷◌, [], ℕ, List, Option, None, flat_map, fold, map, replicate, length, Ok, Err, Result, ◌≤◌, ◌⊎◌};
ghost use Rattle.wk1_file.specs.Files.{IsFile};
ghost use Rattle.wk1_records.specs.declared.fault.Wk1Fault.{Wk1Fault};
ghost use Rattle.wk1_records.specs.declared.fault.Wk1Fault.TheVariants as fault;
ghost use Rattle.wk1_records.specs.Records.{IsBytes, pieces_bytes, Piece, Splits};
ghost use Rattle.wk1_file.specs.Sheets.{entries_in, first_fault, with_cells, with_entry, with_names, with_widths};
ghost use Rattle.wk1_records.specs.declared.entry.Entry.{Entry};
ghost use Rattle.grid_address.specs.Place.{Extent, Place};
ghost use Rattle.range_names.specs.Names.{name_in, NameMap};
ghost use Rattle.sheet_store.specs.Choices.{Choices};
ghost use Rattle.sheet_store.specs.Grid.{Cells, Grid};
ghost use Rattle.sheet_store.specs.declared.writes.SavedSheet.{SavedSheet};
ghost use Rattle.sheet_store.specs.State.{CellState};
ghost use Rattle.wk1_file.specs.Said.{cell_entries, name_entry_of, records_of, settings_entries, widths_entries, AreWidths, AreSettings, IsCell, IsRecord, IsSavedCell, IsSavedName, IsSavedSheet, Says};
ghost use Rattle.wk1_file.specs.Saved.{cell_pieces, eof, file_bytes, name_piece, settings_pieces, width_pieces};

/// The records of a cell say the cell. Nothing is done here: the contract says it.
pub fn cells_are_read()
    ensures { (p : Place) (s : CellState) → IsCell p s → Says (cell_pieces (p, s)) (cell_entries (p, s)) }
{}

/// Records, of which each says something, and an EOF are read in their order, whatever stands before them. Nothing is
/// done here: the contract says it.
pub fn records_are_split()
    ensures split { (at : ℕ) (ps : List Piece) → AllByRecursion IsRecord ps
        → Splits at (pieces_bytes (ps ++ eof ∷ [])) (records_of ps) }
    ensures sound { (ps : List Piece) (es : List Entry) (n : ℕ) → Says ps es → first_fault n (records_of ps) ≡ None }
    ensures said { (ps : List Piece) (es : List Entry) (n : ℕ) → Says ps es → entries_in n (records_of ps) ≡ es }
{}

/// The records of settings say the settings, and put into a sheet they give them. Nothing is done here: the contract
/// says it.
pub fn settings_are_read()
    ensures said { (c : Choices) → AreSettings c → Says (settings_pieces c) (settings_entries c) }
    ensures taken { (c : Choices) (s : SavedSheet) (f : Option Place)
        → fold with_entry (record { sheet = s; formula = f }) (settings_entries c)
        ≡ record { sheet = record s { settings = c }; formula = None } }
{}

/// What the records of cells say makes the sheet's cells. Nothing is done here: the contract says it.
pub fn cells_are_filled()
    ensures { (s : SavedSheet) (m : Cells) (f : Option Place) → AllByRecursion IsSavedCell (finite.entries m)
        → (g : Option Place)
        × (fold with_entry (with_cells s finite.empty f) (flat_map cell_entries (finite.entries m))
        ≡ with_cells s m g) }
{}

/// The records of own widths say the widths, and put into a sheet they give them. Nothing is done here: the contract
/// says it.
pub fn widths_are_read()
    ensures said { (g : Grid) → AreWidths g.widths → Says (width_pieces g) (widths_entries g) }
    ensures taken { (s : SavedSheet) (g : Grid) (f : Option Place) → AreWidths g.widths
        → (h : Option Place)
        × (fold with_entry (with_widths s (replicate 256 0) f) (widths_entries g) ≡ with_widths s g.widths h) }
{}

/// The records of names say the names, and put into a sheet they give them. Nothing is done here: the contract says it.
pub fn names_are_read()
    ensures said { (es : List (List ℕ × Extent)) → AllByRecursion IsSavedName es
        → Says (map (λ e. name_piece (name_in e.0) e.1) es) (map name_entry_of es) }
    ensures taken { (s : SavedSheet) (ns : NameMap) (f : Option Place) → AllByRecursion IsSavedName (finite.entries ns)
        → (h : Option Place)
        × (fold with_entry (with_names s finite.empty f) (map name_entry_of (finite.entries ns)) ≡ with_names s ns h) }
{}

/// What is saved of a sheet is read as the sheet, where it has at most 67,108,864 bytes. Nothing is
/// done here: the contract says it.
pub fn file_is_read()
    ensures { (s : SavedSheet) → IsSavedSheet s → length (file_bytes s) ≤ 67108864 → IsFile (file_bytes s) (Ok s) }
{}

/// Bytes are one sheet, or have one fault. Nothing is done here: the contract says it.
pub fn a_file_is_one_sheet()
    ensures { (bytes : List ℕ) (x y : Result SavedSheet Wk1Fault) → IsFile bytes x → IsFile bytes y → x ≡ y }
{}

/// Every list of bytes is a sheet, or has a fault. Nothing is done here: the contract says it.
pub fn bytes_are_a_file()
    ensures { (bytes : List ℕ) → IsBytes bytes → (x : Result SavedSheet Wk1Fault) × IsFile bytes x }
{}

/// What is read of the bytes of a sheet's file is the sheet, unless memory ran out: the premises are what `write` and
/// `read` ensure. Nothing is done here: the contract says it.
pub fn written_is_read()
    ensures { (bytes : List ℕ) (s : SavedSheet) (x : Result SavedSheet Wk1Fault)
        → IsFile bytes (Ok s) → (x ≡ Err fault.Memory) ⊎ IsFile bytes x → (x ≡ Err fault.Memory) ⊎ (x ≡ Ok s) }
{}
