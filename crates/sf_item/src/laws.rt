//! Laws of the definitions.
ghost use Rattle.sf_item.specs.Laws.{EachHasOneItem, EndedItemsStay, FrontsCanBeTaken, IntegersGoOn, ReadingsGoOn};
ghost use Rattle.sf_item.specs.Laws.{WidthsCutItems, FillingIsComputed, TextsAreComputed};

/// Each input has an item of each proper conversion, and no other.
pub fn one_item()
    ensures { EachHasOneItem }
{}

/// An item that ends before a byte of the input is the item of every longer input.
pub fn ended_items_stay()
    ensures { EndedItemsStay }
{}

/// The item under a width is the item without it, cut at the width.
pub fn widths_cut_items()
    ensures { WidthsCutItems }
{}

/// Each front of what can be taken can be taken; within the width an integer can always go on with a 0; and it is read
/// one part after the other.
pub fn fronts_go_on()
    ensures front { FrontsCanBeTaken }
    ensures zero { IntegersGoOn }
    ensures parts { ReadingsGoOn }
{}

/// What a column's text is, and whether it is a matching sequence, is computed by tests.
pub fn columns_are_computed()
    ensures filling { FillingIsComputed }
    ensures texts { TextsAreComputed }
{}
