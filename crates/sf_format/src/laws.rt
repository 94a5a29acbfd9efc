//! Laws of the definitions that the contracts cite, of scan formats and of print formats.
//! None of these functions does anything: its contract is the law.
ghost use Rattle.sf_format.specs.Grammar.{Spells, SpellsPrint};
ghost use Rattle.sf_format.specs.Faults.{Fault, PrintFault};
ghost use Rattle.sf_format.specs.Laws.{SpellOne, HaveOneFault, AreNeverBoth, AreEither};
ghost use Rattle.sf_format.specs.Laws.{EachIsProper, EachUnnumberedIsInOrder, EachPrintIsProper};
ghost use Rattle.sf_format.specs.Laws.{EachUnnumberedPrintIsInOrder};
ghost use Rattle.sf_format.specs.Laws.{JustSlotsHaveKinds};
ghost use Rattle.sf_format.specs.Laws.{TwoSpellsOne, OneSpellsTwo, OneHasOldBases, TwoPrintsOne, OnePrintsTwo};
ghost use Rattle.sf_format.specs.Laws.{ThreeSpellsTwo, TwoSpellsThree, ThreePrintsTwo, TwoPrintsThree};
ghost use Rattle.sf_format.specs.Strictness.{MarksMakeStrict};

/// A text spells at most one list of directives, and at most one of units.
pub fn one_list()
    ensures scan { SpellOne Spells }
    ensures print { SpellOne SpellsPrint }
{}

/// A text has at most one fault.
pub fn one_fault()
    ensures scan { HaveOneFault Fault }
    ensures print { HaveOneFault PrintFault }
{}

/// No spelled text has a fault.
pub fn not_both()
    ensures scan { AreNeverBoth Spells Fault }
    ensures print { AreNeverBoth SpellsPrint PrintFault }
{}

/// A text of bytes is spelled, or has a fault.
pub fn either()
    ensures scan { AreEither Spells Fault }
    ensures print { AreEither SpellsPrint PrintFault }
{}

/// What is spelled is proper, with the slots from 1 to their count, each once.
pub fn proper()
    ensures scan { EachIsProper }
    ensures print { EachPrintIsProper }
{}

/// Without numbers the slots are assigned in order.
pub fn in_order()
    ensures scan { EachUnnumberedIsInOrder }
    ensures print { EachUnnumberedPrintIsInOrder }
{}

/// Of the slots of a format, just those from 1 to their count have a kind.
pub fn slots_have_kinds()
    ensures { JustSlotsHaveKinds }
{}

/// A text that profile 1 spells, profile 2 spells as well, with `AutoBin` for `Auto`; one that profile 2 spells without
/// `Bin` and without `Binary`, profile 1 spells as well, with `Auto` for `AutoBin`. What profile 1 spells has nothing
/// of profile 2.
pub fn profiles()
    ensures scan_two { TwoSpellsOne }
    ensures scan_one { OneSpellsTwo }
    ensures scan_old { OneHasOldBases }
    ensures print_two { TwoPrintsOne }
    ensures print_one { OnePrintsTwo }
{}

/// `ScanFormat::strict` makes of a format what its text spells with a `!` in each conversion that can have one.
pub fn marks_make_strict()
    ensures { MarksMakeStrict }
{}

/// Profile 3 spells the scan formats of profile 2, and of those without a float, a `?`, a `=`, a `!` and a group no
/// others. It spells the print formats of profile 2, and of those without a float no others.
pub fn profile_three()
    ensures scan_three { ThreeSpellsTwo }
    ensures scan_two { TwoSpellsThree }
    ensures print_three { ThreePrintsTwo }
    ensures print_two { TwoPrintsThree }
{}
