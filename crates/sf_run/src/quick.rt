//! Runs that begin and pass within a piece of the input, read at once.
ghost use Rattle.std.specs.Prelude.{suc, ◌≡◌, ◌≢◌, ◌<◌, ◌≤◌, ◌+◌, ◌-◌, ◌^◌, ◌++◌, ℕ, List, [], ◌∷◌, length, slice_get};
ghost use Rattle.std.specs.Prelude.{take, drop};
ghost use Rattle.std.specs.Prelude.{None, Some, IfErr, IfOk, IfSome, IsNone, IsSome, is_some, if◌then◌else◌};
ghost use Rattle.sf_format.specs.declared.directive.Directive.{Directive};
ghost use Rattle.sf_base.specs.Data.{Assigned};
ghost use Rattle.sf_base.specs.stores.Kept.{buffer_of, nothing_kept};
ghost use Rattle.sf_format.specs.Layout.{assigns_item, items_assigned, items_taken, row_of};
ghost use Rattle.sf_format.specs.Proper.{destinations_of, more_of};
ghost use Rattle.sf_report.specs.declared.outcome.Ending.{Ending};
ghost use Rattle.sf_report.specs.declared.outcome.Status.TheVariants as statuses;
ghost use Rattle.sf_report.specs.Limits.{RunWithin};
ghost use Rattle.sf_report.specs.Memory.{HoldsValues, capacity_of};
ghost use Rattle.sf_run.specs.Phases.{IsNumberGiven, end_of, slot_given};
ghost use Rattle.sf_run.specs.Pieces.{EndsAtOnce, EndsWithAll};
ghost use Rattle.sf_run.specs.Counting.{HasCome, front_of, none_missing};
ghost use Rattle.sf_run.specs.Quick.{EndsSo, GivesTo, IsDoneWithin, IsEndedWithin, IsSure, IsUngiven, MayBeGiven};
ghost use Rattle.sf_run.specs.Quick.{text_stored, ungiven_end};
ghost use Rattle.sf_run.specs.declared.quick.Missing.{Missing};
ghost use Rattle.sf_run.specs.declared.quick.PassageEnd.TheVariants as ends;
ghost use Rattle.sf_run.specs.Texts.{IsSound, slot_of};
ghost use Rattle.sf_report.specs.Views.{report_by};

use crate::directive::{
    Ended, EndedColumn, Finished, byte_at_once, characters_at_once, ended_by_run, members_at_once,
    number_at_once, rarer_at_once, real_at_once, seen_at_once, strict_number_at_once,
    strict_text_at_once, text_at_once, until_at_once, whole_space,
};
use crate::number::real_within;
use crate::tally::is_conversion;
use sf_base::{HeapStore, Number, Store};
use sf_format::{Base, Directive, Lead, Row, ScanFormat, Way};
use sf_report::{Outcome, Status};

/// How a directive ends within a piece of the input, whatever follows that.
#[derive(Clone, Copy)]
enum PassageEnd {
    /// It passes, and the store has what it gives.
    Passes,
    /// Its item is missing, and may be.
    Misses,
    Fails(Status),
}

/// What a directive makes of a piece.
#[derive(Clone, Copy)]
struct Passage {
    /// How many bytes it takes.
    taken: usize,
    end: PassageEnd,
}

/// How many items of a run are missing.
#[derive(Clone, Copy)]
struct Missing {
    /// Those that a destination would have been given.
    assigned: u8,
    /// All, those of suppressed conversions too.
    converted: u16,
}

/// Before an item is missing.
const NONE_MISSING: Missing = Missing {
    assigned: 0,
    converted: 0,
};

/// How far a run has come in which no directive has failed.
#[derive(Clone, Copy)]
struct Place {
    /// How many directives are left.
    left: usize,
    /// How many bytes those before them took.
    used: usize,
}

impl Missing {
    /// With the item of this directive, if it takes one.
    #[inline(always)]
    fn with_one(self, directive: &Directive) -> Missing
        requires assigned { self.assigned < 2 ^ 8 - 1 }
        requires converted { self.converted < 2 ^ 16 - 1 }
        ensures assigned { result.assigned ≡ self.assigned + items_assigned (directive.now ∷ []) }
        ensures converted { result.converted ≡ self.converted + items_taken (directive.now ∷ []) }
    {
        Missing {
            assigned: self.assigned + assigns_item(directive) as u8,
            converted: self.converted + is_conversion(directive) as u16,
        }
    }

    /// With the items of these directives.
    #[inline(always)]
    fn with(self, directives: &[Directive]) -> Missing
        requires assigned { self.assigned + items_assigned directives.now < 2 ^ 8 - 1 }
        requires converted { self.converted + items_taken directives.now < 2 ^ 16 - 1 }
        ensures assigned { result.assigned ≡ self.assigned + items_assigned directives.now }
        ensures converted { result.converted ≡ self.converted + items_taken directives.now }
    {
        // a value that is missing by itself costs no loop
        if let [directive] = directives {
            return self.with_one(directive);
        }
        let mut missing = self;
        for directive in directives {
            missing = missing.with_one(directive);
        }
        missing
    }
}

/// Those of the directives that are missing with the first of them, which is this one, and may be.
fn missed<'d>(first: &Directive, directives: &'d [Directive]) -> &'d [Directive]
    ensures { result.now ≡ take (suc (more_of first.now)) directives.now }
{
    let count = directives.len().min(first.more() as usize + 1);
    let (missed, _) = directives.split_at(count);
    missed
}

/// Gives a store without an opened text what a directive gives that ends so within the piece. Answers whether that is
/// something. None where the directive fails, or the storing is refused.
#[inline(always)]
fn give<S: Store>(store: &mut S, ended: Ended, piece: &[u8]) -> Option<bool>
    requires opened { (S.kept store.old).opened ≡ None }
    requires free { MayBeGiven S.slots (slot_given ended.finished) (S.kept store.old).values }
    requires number { IsNumberGiven ended.finished }
    requires within { ended.before + ended.item ≤ length piece.now }
    ensures gives { IfSome result (λ stores. GivesTo (end_of
        (take ended.item (drop ended.before piece.now)) ended.finished) stores (S.kept store.old) (S.kept store.new)) }
    ensures none { IsNone result → IsUngiven (end_of
        (take ended.item (drop ended.before piece.now)) ended.finished) (S.kept store.old).room }
    ensures same { IsNone result → S.kept store.new ≡ S.kept store.old }
    ensures room { capacity_of (S.kept store.old) ≤ capacity_of (S.kept store.new) }
{
    match ended.finished {
        Finished::Passes => Some(false),
        Finished::Stores {
            slot,
            kind,
            negative,
            magnitude,
        } => {
            let number = Number {
                kind,
                negative,
                magnitude,
            };
            store.set_number(slot, number);
            Some(true)
        }
        Finished::Closes { slot } => {
            let (_, rest) = piece.split_at(ended.before);
            match store.put_text(slot, rest, ended.item) {
                Ok(()) => Some(true),
                Err(_) => None,
            }
        }
        Finished::Reads { slot, kind } => {
            let (_, rest) = piece.split_at(ended.before);
            store.set_real(slot, real_within(kind, rest, ended.item)?);
            Some(true)
        }
        Finished::Misses | Finished::Fails(_) => None,
    }
}

/// How a directive ends that gives nothing: its item is missing, it fails, or what it reads is no float of its kind.
#[inline(always)]
fn ungiven(finished: Finished) -> Option<PassageEnd>
    ensures is { (text : List ℕ) (room : ℕ) → IsUngiven (end_of text finished) room
        → IfSome result (λ end. end_of text finished ≡ ungiven_end end) }
    ensures gives { IfSome result (λ end. end ≢ ends.Passes) }
    ensures some { (text : List ℕ) (room : ℕ) → IsUngiven (end_of text finished) room
        → length (text_stored (end_of text finished)) ≤ room → IsSome result }
{
    match finished {
        Finished::Misses => Some(PassageEnd::Misses),
        Finished::Fails(status) => Some(PassageEnd::Fails(status)),
        Finished::Reads { .. } => Some(PassageEnd::Fails(Status::OutOfRange)),
        Finished::Passes | Finished::Stores { .. } | Finished::Closes { .. } => None,
    }
}

/// Passes a directive that ends so within the piece, and says how many bytes it takes. None where it isn't said to end,
/// where it fails or its item is missing, or where the storing is refused: then nothing has changed.
#[inline(always)]
fn pass_so<S: Store>(
    store: &mut S,
    directive: &Directive,
    ended: Option<Ended>,
    piece: &[u8],
    used: u32,
) -> Option<usize>
    requires opened { (S.kept store.old).opened ≡ None }
    requires free { MayBeGiven S.slots (slot_of directive.now) (S.kept store.old).values }
    requires ends { IfSome ended (EndsAtOnce directive.now used piece.now) }
    ensures passes { IsSound directive.now → IfSome result (λ taken. EndsSo directive.now used piece.now
        (record { taken = taken; end = ends.Passes }) (S.kept store.old) (S.kept store.new)) }
    ensures within { IfSome result (λ taken. taken ≤ length piece.now) }
    ensures same { IsNone result → S.kept store.new ≡ S.kept store.old }
    ensures room { capacity_of (S.kept store.old) ≤ capacity_of (S.kept store.new) }
{
    let _directive = directive;
    let _used = used;
    let ended = ended?;
    let _stores = give(store, ended, piece)?;
    Some(ended.before + ended.item)
}

/// As `pass_so`, also of a directive that fails, or whose item is missing: what it makes of the piece. None where it
/// isn't said to end, or where the storing is refused.
#[inline(always)]
fn end_so<S: Store>(
    store: &mut S,
    directive: &Directive,
    ended: Option<EndedColumn>,
    piece: &[u8],
    used: u32,
) -> Option<Passage>
    requires opened { (S.kept store.old).opened ≡ None }
    requires free { MayBeGiven S.slots (slot_of directive.now) (S.kept store.old).values }
    requires ends { IfSome ended (EndsWithAll directive.now used piece.now) }
    ensures ends { IsSound directive.now → IfSome result
        (λ passage. EndsSo directive.now used piece.now passage (S.kept store.old) (S.kept store.new)) }
    ensures within { IfSome result (λ passage. passage.taken ≤ length piece.now) }
    ensures sure { IsSome ended → IsSound directive.now → IsSure directive.now used piece.now (S.kept store.old).room
        → IsSome result }
    ensures same { IsNone result → S.kept store.new ≡ S.kept store.old }
    ensures room { capacity_of (S.kept store.old) ≤ capacity_of (S.kept store.new) }
{
    let _directive = directive;
    let _used = used;
    let column = ended?;
    let ended = column.ended;
    let taken = ended.before + ended.item + column.after;
    if let Some(_stores) = give(store, ended, piece) {
        return Some(Passage {
            taken,
            end: PassageEnd::Passes,
        });
    }
    let end = ungiven(ended.finished)?;
    Some(Passage { taken, end })
}

/// As `end_so`, of a directive that is seen at once to give its slot a float.
#[inline(always)]
fn pass_real<S: Store>(
    store: &mut S,
    directive: &Directive,
    piece: &[u8],
    used: u32,
) -> Option<Passage>
    requires opened { (S.kept store.old).opened ≡ None }
    requires free { MayBeGiven S.slots (slot_of directive.now) (S.kept store.old).values }
    ensures ends { IsSound directive.now → IfSome result
        (λ passage. EndsSo directive.now used piece.now passage (S.kept store.old) (S.kept store.new)) }
    ensures within { IfSome result (λ passage. passage.taken ≤ length piece.now) }
    ensures same { IsNone result → S.kept store.new ≡ S.kept store.old }
    ensures room { capacity_of (S.kept store.old) ≤ capacity_of (S.kept store.new) }
{
    let _used = used;
    let read = real_at_once(directive, piece)?;
    store.set_real(read.slot, read.real);
    Some(Passage {
        taken: read.ended.before + read.ended.item,
        end: PassageEnd::Passes,
    })
}

/// What a directive makes of the piece, whichever it is, and however it ends. None only where it may go on after the
/// piece, or where the storing is refused.
#[inline(always)]
fn pass_whole<S: Store>(
    store: &mut S,
    directive: &Directive,
    piece: &[u8],
    used: u32,
) -> Option<Passage>
    requires opened { (S.kept store.old).opened ≡ None }
    requires free { MayBeGiven S.slots (slot_of directive.now) (S.kept store.old).values }
    ensures ends { IsSound directive.now → IfSome result
        (λ passage. EndsSo directive.now used piece.now passage (S.kept store.old) (S.kept store.new)) }
    ensures within { IfSome result (λ passage. passage.taken ≤ length piece.now) }
    ensures sure { IsSound directive.now → IsSure directive.now used piece.now (S.kept store.old).room
        → IsSome result }
    ensures room { capacity_of (S.kept store.old) ≤ capacity_of (S.kept store.new) }
{
    if let Some(passage) = pass_real(store, directive, piece, used) {
        return Some(passage);
    }
    // what is seen at once stores nothing, and goes its own way to the end
    if let Some(ended) = seen_at_once(directive, piece) {
        let seen = EndedColumn { ended, after: 0 };
        return end_so(store, directive, Some(seen), piece, used);
    }
    if let Some(ended) = rarer_at_once(directive, piece) {
        let number = EndedColumn { ended, after: 0 };
        return end_so(store, directive, Some(number), piece, used);
    }
    let ended = ended_by_run(directive, piece, used);
    end_so(store, directive, ended, piece, used)
}

/// Passes a directive that is seen at once to end within the piece, which comes so many bytes into the run, the way
/// that its row says: how many bytes it takes. None where that isn't seen, where it fails or its item is missing, or
/// where the storing is refused: then nothing has changed.
#[inline(always)]
fn pass<S: Store>(
    store: &mut S,
    format: &ScanFormat,
    left: usize,
    directive: &Directive,
    row: &Row,
    piece: &[u8],
    used: u32,
) -> Option<usize>
    requires opened { (S.kept store.old).opened ≡ None }
    requires some { 0 < left }
    requires within { left ≤ length format.now }
    requires first { slice_get format.now (length format.now - left) ≡ Some directive.now }
    requires free { MayBeGiven S.slots (slot_of directive.now) (S.kept store.old).values }
    requires row { row.now ≡ row_of directive.now }
    ensures passes { IsSound directive.now → IfSome result (λ taken. EndsSo directive.now used piece.now
        (record { taken = taken; end = ends.Passes }) (S.kept store.old) (S.kept store.new)) }
    ensures within { IfSome result (λ taken. taken ≤ length piece.now) }
    ensures same { IsNone result → S.kept store.new ≡ S.kept store.old }
    ensures room { capacity_of (S.kept store.old) ≤ capacity_of (S.kept store.new) }
{
    match row.way {
        Way::Space => {
            let ended = whole_space(piece);
            pass_so(store, directive, ended, piece, used)
        }
        Way::Byte => {
            let ended = byte_at_once(row, piece);
            pass_so(store, directive, ended, piece, used)
        }
        Way::Decimal => {
            let ended = number_at_once(row, Base::Dec, piece);
            pass_so(store, directive, ended, piece, used)
        }
        Way::Hexadecimal => {
            let ended = number_at_once(row, Base::Hex, piece);
            pass_so(store, directive, ended, piece, used)
        }
        Way::Text => {
            let ended = text_at_once(row, piece);
            pass_so(store, directive, ended, piece, used)
        }
        Way::StrictSigned => {
            let ended = strict_number_at_once(row, Lead::Minus, Base::Dec, piece);
            pass_so(store, directive, ended, piece, used)
        }
        Way::StrictDecimal => {
            let ended = strict_number_at_once(row, Lead::Nothing, Base::Dec, piece);
            pass_so(store, directive, ended, piece, used)
        }
        Way::StrictHexadecimal => {
            let ended = strict_number_at_once(row, Lead::Nothing, Base::Hex, piece);
            pass_so(store, directive, ended, piece, used)
        }
        Way::StrictText => {
            let ended = strict_text_at_once(row, piece);
            pass_so(store, directive, ended, piece, used)
        }
        Way::Until => {
            let ended = until_at_once(row, piece);
            pass_so(store, directive, ended, piece, used)
        }
        Way::Members => {
            let ended = members_at_once(row, format, left, piece);
            pass_so(store, directive, ended, piece, used)
        }
        Way::Characters => {
            let ended = characters_at_once(row, piece);
            pass_so(store, directive, ended, piece, used)
        }
        Way::Octal | Way::Automatic | Way::AutomaticBinary | Way::Another => None,
    }
}

/// How many directives take an input item.
fn items_taken(directives: &[Directive]) -> u16
    requires { length directives.now ≤ 4096 }
    ensures { result ≡ items_taken directives.now }
{
    let mut count = 0;
    for directive in directives {
        if is_conversion(directive) {
            count += 1;
        }
    }
    count
}

/// Whether the directive gives an input item to a destination.
fn assigns_item(directive: &Directive) -> bool
    ensures { result ≡ assigns_item directive.now }
{
    match directive {
        Directive::Conv(conversion) => is_conversion(directive) && conversion.slot.is_some(),
        _ => false,
    }
}

/// How many directives give an input item to a destination.
fn items_assigned(directives: &[Directive]) -> u8
    requires { items_assigned directives.now ≤ 32 }
    ensures { result ≡ items_assigned directives.now }
{
    let mut count = 0;
    for directive in directives {
        if assigns_item(directive) {
            count += 1;
        }
    }
    count
}

/// The outcome of a run in which a directive fails, after so many others, and these items are missing.
#[inline(always)]
fn failed(
    format: &ScanFormat,
    passed: usize,
    missing: Missing,
    used: u32,
    status: Status,
) -> Outcome
    requires within { passed < length format.now }
    requires few { items_assigned (take passed format.now) ≤ 32 }
    requires assigned { missing.assigned ≤ items_assigned (take passed format.now) }
    requires converted { missing.converted ≤ items_taken (take passed format.now) }
    ensures status { result.status ≡ status }
    ensures at { result.at ≡ passed + 1 }
    ensures assigned { result.assigned ≡ items_assigned (take passed format.now) - missing.assigned }
    ensures converted { result.converted ≡ items_taken (take passed format.now) - missing.converted }
    ensures used { result.used ≡ used }
    ensures met { result.met ≡ None }
{
    let (before, _) = format.directives().split_at(passed);
    Outcome {
        status,
        at: passed as u16 + 1,
        assigned: items_assigned(before) - missing.assigned,
        converted: items_taken(before) - missing.converted,
        used,
        met: None,
    }
}

/// The outcome of a run in which no directive fails, and these items are missing.
#[inline(always)]
fn done(format: &ScanFormat, missing: Missing, used: u32) -> Outcome
    requires assigned { missing.assigned ≤ items_assigned format.now }
    requires converted { missing.converted ≤ items_taken format.now }
    ensures status { result.status ≡ statuses.Done }
    ensures at { result.at ≡ 0 }
    ensures assigned { result.assigned ≡ items_assigned format.now - missing.assigned }
    ensures converted { result.converted ≡ items_taken format.now - missing.converted }
    ensures used { result.used ≡ used }
    ensures met { result.met ≡ None }
{
    Outcome {
        status: Status::Done,
        at: 0,
        assigned: format.assigned() - missing.assigned,
        converted: format.converted() - missing.converted,
        used,
        met: None,
    }
}

/// Runs the rows of a format from a place on, as long as each is seen at once to pass within the front of a piece: how
/// far that comes. It neither counts nor reports, so that a record that passes takes no more than that.
#[inline(never)]
fn run_rows<S: Store>(store: &mut S, format: &ScanFormat, front: &[u8], place: Place) -> Place
    requires slots { length (destinations_of format.now) ≤ S.slots }
    requires left { place.left ≤ length format.now }
    requires short { length front.now < 2 ^ 32 }
    requires used { place.used ≤ length front.now }
    requires come { (missing : Missing) × HasCome format.now front.now place missing (S.kept store.old) }
    ensures come { (missing : Missing) → HasCome format.now front.now place missing (S.kept store.old)
        → HasCome format.now front.now result missing (S.kept store.new) }
    ensures left { result.left ≤ place.left }
    ensures used { result.used ≤ length front.now }
    ensures room { capacity_of (S.kept store.old) ≤ capacity_of (S.kept store.new) }
{
    let directives = format.directives();
    let rows = format.rows();
    let (_, mut left) = rows.split_at(rows.len() - place.left);
    let (_, mut rest) = front.split_at(place.used);
    while let Some(row) = left.first() {
        let at = rows.len() - left.len();
        let directive = &directives[at];
        let used = (front.len() - rest.len()) as u32;
        let Some(taken) = pass(store, format, left.len(), directive, row, rest, used) else {
            return Place {
                left: left.len(),
                used: front.len() - rest.len(),
            };
        };
        let (_, after) = rest.split_at(taken);
        rest = after;
        // cut last, so that the loop's test is that of the count just taken down
        let (_, others) = left.split_at(1);
        left = others;
    }
    Place {
        left: 0,
        used: front.len() - rest.len(),
    }
}

/// Runs what is left of a format at a place before a directive that isn't seen at once to pass: one that is read by its
/// shape, that fails, or whose item is missing. It stands apart, and a run in which there is none of them is as it was.
#[cold]
#[inline(never)]
fn run_rest<S: Store>(
    store: &mut S,
    format: &ScanFormat,
    limit: u32,
    piece: &[u8],
    place: Place,
) -> Option<Outcome>
    requires slots { length (destinations_of format.now) ≤ S.slots }
    requires left { place.left ≤ length format.now }
    requires used { place.used ≤ length (front_of limit piece.now) }
    requires come { HasCome format.now (front_of limit piece.now) place none_missing (S.kept store.old) }
    ensures run { IfSome result (λ outcome. (z : List ℕ) (ending : Ending)
        → RunWithin format.now limit (piece.now ++ z) ending (report_by outcome (S.kept store.new).values)) }
    ensures met { IfSome result (λ outcome. outcome.met ≡ None) }
    ensures used { IfSome result (λ outcome. outcome.used ≤ length piece.now) }
    ensures answers { (capacity : ℕ) → capacity ≤ capacity_of (S.kept store.old)
        → IsEndedWithin format.now limit piece.now capacity → IsSome result }
    ensures texts { IfSome result (λ _. HoldsValues (S.kept store.new)) }
    ensures room { capacity_of (S.kept store.old) ≤ capacity_of (S.kept store.new) }
{
    let most = (limit as usize).min(piece.len());
    let (front, _) = piece.split_at(most);
    let directives = format.directives();
    let mut come = place;
    let mut missing = NONE_MISSING;
    while come.left > 0 {
        let at = directives.len() - come.left;
        let directive = &directives[at];
        let (_, rest) = front.split_at(come.used);
        let passage = pass_whole(store, directive, rest, come.used as u32)?;
        let used = come.used + passage.taken;
        let mut ended = 1;
        match passage.end {
            PassageEnd::Passes => {}
            PassageEnd::Misses => {
                let (_, others) = directives.split_at(at);
                let missed = missed(directive, others);
                missing = missing.with(missed);
                ended = missed.len();
            }
            PassageEnd::Fails(status) => {
                return Some(failed(format, at, missing, used as u32, status));
            }
        }
        let next = Place {
            left: come.left - ended,
            used,
        };
        come = run_rows(store, format, front, next);
    }
    Some(done(format, missing, come.used as u32))
}

/// As `run_rest`, of a run that is Done; None where it fails.
#[cold]
#[inline(never)]
fn done_rest<S: Store>(
    store: &mut S,
    format: &ScanFormat,
    limit: u32,
    piece: &[u8],
    place: Place,
) -> Option<Outcome>
    requires slots { length (destinations_of format.now) ≤ S.slots }
    requires left { place.left ≤ length format.now }
    requires used { place.used ≤ length (front_of limit piece.now) }
    requires come { HasCome format.now (front_of limit piece.now) place none_missing (S.kept store.old) }
    ensures run { IfSome result (λ outcome. (z : List ℕ) (ending : Ending)
        → RunWithin format.now limit (piece.now ++ z) ending (report_by outcome (S.kept store.new).values)) }
    ensures done { IfSome result (λ outcome. outcome.status ≡ statuses.Done) }
    ensures met { IfSome result (λ outcome. outcome.met ≡ None) }
    ensures used { IfSome result (λ outcome. outcome.used ≤ length piece.now) }
    ensures answers { (capacity : ℕ) → capacity ≤ capacity_of (S.kept store.old)
        → IsDoneWithin format.now limit piece.now capacity → IsSome result }
    ensures texts { IfSome result (λ _. HoldsValues (S.kept store.new)) }
    ensures room { capacity_of (S.kept store.old) ≤ capacity_of (S.kept store.new) }
{
    let _directives = format.directives();
    let outcome = run_rest(store, format, limit, piece, place)?;
    match outcome.status {
        Status::Done => Some(outcome),
        _ => None,
    }
}

/// Runs the rows of a format from its start, into an empty store with a slot for each destination: the outcome where
/// each is seen at once to pass within the piece, else the place before the first that isn't.
#[inline(always)]
fn run_all_rows<S: Store>(
    store: &mut S,
    format: &ScanFormat,
    limit: u32,
    piece: &[u8],
) -> Result<Outcome, Place>
    requires empty { S.kept store.old ≡ nothing_kept (S.kept store.old).room }
    requires slots { length (destinations_of format.now) ≤ S.slots }
    ensures run { IfOk result (λ outcome. (z : List ℕ) (ending : Ending)
        → RunWithin format.now limit (piece.now ++ z) ending (report_by outcome (S.kept store.new).values)) }
    ensures done { IfOk result (λ outcome. outcome.status ≡ statuses.Done) }
    ensures met { IfOk result (λ outcome. outcome.met ≡ None) }
    ensures used { IfOk result (λ outcome. outcome.used ≤ length piece.now) }
    ensures texts { IfOk result (λ _. HoldsValues (S.kept store.new)) }
    ensures left { IfErr result (λ place. place.left ≤ length format.now) }
    ensures passed { IfErr result (λ place. place.used ≤ length (front_of limit piece.now)) }
    ensures come { IfErr result (λ place.
        HasCome format.now (front_of limit piece.now) place none_missing (S.kept store.new)) }
    ensures room { capacity_of (S.kept store.old) ≤ capacity_of (S.kept store.new) }
{
    let directives = format.directives();
    let most = (limit as usize).min(piece.len());
    let (front, _) = piece.split_at(most);
    let start = Place {
        left: directives.len(),
        used: 0,
    };
    let place = run_rows(store, format, front, start);
    if place.left == 0 {
        return Ok(done(format, NONE_MISSING, place.used as u32));
    }
    Err(place)
}

/// As `sure_run`, into an empty store that has a slot for each destination of the format.
#[inline(always)]
fn sure_run_into<S: Store>(
    store: &mut S,
    format: &ScanFormat,
    limit: u32,
    piece: &[u8],
) -> Option<Outcome>
    requires empty { S.kept store.old ≡ nothing_kept (S.kept store.old).room }
    requires slots { length (destinations_of format.now) ≤ S.slots }
    ensures run { IfSome result (λ outcome. (z : List ℕ) (ending : Ending)
        → RunWithin format.now limit (piece.now ++ z) ending (report_by outcome (S.kept store.new).values)) }
    ensures met { IfSome result (λ outcome. outcome.met ≡ None) }
    ensures used { IfSome result (λ outcome. outcome.used ≤ length piece.now) }
    ensures answers { IsEndedWithin format.now limit piece.now (capacity_of (S.kept store.old)) → IsSome result }
    ensures texts { IfSome result (λ _. HoldsValues (S.kept store.new)) }
    ensures room { capacity_of (S.kept store.old) ≤ capacity_of (S.kept store.new) }
{
    match run_all_rows(store, format, limit, piece) {
        Ok(outcome) => Some(outcome),
        Err(place) => run_rest(store, format, limit, piece, place),
    }
}

/// Reads a record at once that begins and passes within a piece of the input, and gives an empty store the values. What
/// it answers is the result of the run on every input that begins with the piece, with every ending; the run consumes
/// at most `limit` bytes. It answers wherever the run is Done before a byte of the piece or of the limit is lacking,
/// and the store has room for its texts. The store has a slot for each destination of the format.
///
/// None where the record isn't Done whatever follows the piece, where the limit may be passed or the storing of a text
/// was refused: then it answers nothing about the run, and the store may keep something.
#[inline(always)]
pub fn quick_run_into<S: Store>(
    store: &mut S,
    format: &ScanFormat,
    limit: u32,
    piece: &[u8],
) -> Option<Outcome>
    requires empty { S.kept store.old ≡ nothing_kept (S.kept store.old).room }
    requires slots { length (destinations_of format.now) ≤ S.slots }
    ensures run { IfSome result (λ outcome. (z : List ℕ) (ending : Ending)
        → RunWithin format.now limit (piece.now ++ z) ending (report_by outcome (S.kept store.new).values)) }
    ensures done { IfSome result (λ outcome. outcome.status ≡ statuses.Done) }
    ensures met { IfSome result (λ outcome. outcome.met ≡ None) }
    ensures used { IfSome result (λ outcome. outcome.used ≤ length piece.now) }
    ensures answers { IsDoneWithin format.now limit piece.now (capacity_of (S.kept store.old)) → IsSome result }
    ensures texts { IfSome result (λ _. HoldsValues (S.kept store.new)) }
    ensures room { capacity_of (S.kept store.old) ≤ capacity_of (S.kept store.new) }
{
    match run_all_rows(store, format, limit, piece) {
        Ok(outcome) => Some(outcome),
        Err(place) => done_rest(store, format, limit, piece, place),
    }
}

/// As `quick_run_into`, over a store that was used before: empties it first, and keeps its memory.
#[inline(always)]
pub fn quick_run(
    store: &mut HeapStore,
    format: &ScanFormat,
    limit: u32,
    piece: &[u8],
) -> Option<Outcome>
    ensures run { IfSome result (λ outcome. (z : List ℕ) (ending : Ending)
        → RunWithin format.now limit (piece.now ++ z) ending (report_by outcome store.new.values)) }
    ensures done { IfSome result (λ outcome. outcome.status ≡ statuses.Done) }
    ensures met { IfSome result (λ outcome. outcome.met ≡ None) }
    ensures used { IfSome result (λ outcome. outcome.used ≤ length piece.now) }
    ensures answers { IsDoneWithin format.now limit piece.now (capacity_of store.old) → IsSome result }
    ensures texts { IfSome result (λ _. HoldsValues store.new) }
    ensures room { capacity_of store.old ≤ capacity_of store.new }
{
    let _destinations = format.destinations();
    store.clear();
    quick_run_into(store, format, limit, piece)
}

/// As `quick_run`, also of a record that isn't Done: it answers however the run ends, also where it fails or an item is
/// missing, wherever that is before a byte of the piece or of the limit is lacking, and the store has room for its
/// texts. The store then has the values of the directives before the one that fails.
#[inline(always)]
pub fn sure_run(
    store: &mut HeapStore,
    format: &ScanFormat,
    limit: u32,
    piece: &[u8],
) -> Option<Outcome>
    ensures run { IfSome result (λ outcome. (z : List ℕ) (ending : Ending)
        → RunWithin format.now limit (piece.now ++ z) ending (report_by outcome store.new.values)) }
    ensures met { IfSome result (λ outcome. outcome.met ≡ None) }
    ensures used { IfSome result (λ outcome. outcome.used ≤ length piece.now) }
    ensures answers { IsEndedWithin format.now limit piece.now (capacity_of store.old) → IsSome result }
    ensures texts { IfSome result (λ _. HoldsValues store.new) }
    ensures room { capacity_of store.old ≤ capacity_of store.new }
{
    let _destinations = format.destinations();
    store.clear();
    sure_run_into(store, format, limit, piece)
}
