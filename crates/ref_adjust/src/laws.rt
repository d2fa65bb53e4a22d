// Laws of the definitions. Nothing is done here.
ghost use Rattle.std.specs.Prelude.{◌≤◌};
ghost use Rattle.grid_address.specs.Place.{Extent, Place};
ghost use Rattle.ref_adjust.specs.declared.change.Change.{Change};
ghost use Rattle.ref_adjust.specs.Laws.{IsOneToOne, ReferencesFollow, StaysInSheet};
ghost use Rattle.ref_adjust.specs.Lines.{place_shifted, IsChange};
ghost use Rattle.ref_adjust.specs.Moves.{place_moved, FitsAt};

/// After a move each reference that isn't lost names the place to which its cell went, places stay in the sheet, and no
/// two come to the same place.
pub fn references_follow_a_move()
    ensures follow { (from : Extent) (to : Place) → FitsAt from to → ReferencesFollow (place_moved from to) }
    ensures inside { (from : Extent) (to : Place) → FitsAt from to → StaysInSheet (place_moved from to) }
    ensures apart { (from : Extent) (to : Place) → FitsAt from to → IsOneToOne (place_moved from to) }
{}

/// The same after rows or columns were inserted or deleted.
pub fn references_follow_a_change()
    ensures follow { (change : Change) → IsChange change → ReferencesFollow (place_shifted change) }
    ensures inside { (change : Change) → IsChange change → StaysInSheet (place_shifted change) }
    ensures apart { (change : Change) → IsChange change → IsOneToOne (place_shifted change) }
{}
