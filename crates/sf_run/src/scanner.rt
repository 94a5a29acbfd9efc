//! A scanner that is handed its input piece by piece.
ghost use Rattle.std.specs.Prelude.{◌≡◌, ℕ, ◌+◌, ◌<◌, ◌≤◌, ◌∷◌, ◌++◌, [], List, length, take, true, false, slice_get};
ghost use Rattle.std.specs.Prelude.{is_some, IsSome, IsNone, IfNone, IfSome, IsOk, IfOk, IfErr, IsErr, IsErrOf};
ghost use Rattle.std.specs.Prelude.{IsOkAnd, IsSomeAnd, ◌↔◌, ◌⊎◌, ◌^◌, drop, if◌then◌else◌, Some, None, unwrap_or};
ghost use Rattle.std.specs.Bool.{OnTrue, OnFalse};
ghost use Rattle.std.specs.Option.{option_map};
ghost use Rattle.std.specs.Result.{result_ok};
ghost use Rattle.sf_base.specs.Data.{Assigned, Bytes, Real as RealOf, datum_of_number};
ghost use Rattle.sf_report.specs.Machine.{real_at, real_end};
ghost use Rattle.sf_base.specs.stores.Kept.{buffer_of, longer, with_bytes, with_cut, nothing_kept, text_of, texts_in};
ghost use Rattle.sf_format.specs.declared.directive.Directive.{Directive};
ghost use Rattle.sf_format.specs.Proper.{destinations_of, slots_of};
ghost use Rattle.sf_format.specs.Widths.{width_sum};
ghost use Rattle.sf_report.specs.declared.outcome.Ending.{Ending};
ghost use Rattle.sf_report.specs.declared.outcome.Status.TheVariants as status;
ghost use Rattle.sf_run.specs.Holding.{are_placed, are_apart, are_among, first_slot, is_text, still_stored, is_limited};
ghost use Rattle.sf_run.specs.Holding.{LeftAfterAll, left_before};
ghost use Rattle.sf_run.specs.declared.directive.Phase.TheVariants as phase;
ghost use Rattle.sf_run.specs.Phases.{end_of, slot_in};
ghost use Rattle.sf_run.specs.Pieces.{IsEnd};
ghost use Rattle.sf_run.specs.Places.{places_left};
ghost use Rattle.sf_run.specs.Stopping.{is_no_memory, is_memory_status};
ghost use Rattle.sf_run.specs.Texts.{AreSound, IsSound, closing_text, text_slot, slot_of, opened_slot, slots_in};
ghost use Rattle.sf_run.specs.Texts.{IsNextSlot};
ghost use Rattle.sf_run.specs.Texts.{opened_with};
ghost use Rattle.sf_report.specs.Steps.{StepEnd};

use crate::directive::{Finished, Phase, Run, closing_text, finish, is_cut, opened_phase, run_on};
use crate::feeding::{Fed, FeedState, StartFault};
use crate::number::real_of;
use crate::tally::Tally;
use sf_base::{FixedStore, HeapStore, Kind, Number, Real, Store, push_each};
use sf_format::{Directive, ScanFormat};
use sf_report::{Ending, Outcome, Report, Scanned, Status};
use std::alloc::Global;

/// The most bytes that a run may consume: no limit is above it.
pub const MOST_BYTES: u32 = 2147483647;

/// Where and how a run stopped.
#[derive(Clone, Copy, Debug, PartialEq, Eq)]
pub(crate) struct Stop {
    pub(crate) status: Status,
    /// The directive that failed, counted from 1, or 0.
    pub(crate) at: u16,
}

/// How many bytes a directive was handed that were taken, and whether it waits for more.
#[derive(Clone, Copy)]
struct Handed {
    taken: usize,
    waits: bool,
}

/// Appends bytes to the opened text as far as the store takes them, and answers how many it took.
fn store_bytes<S: Store>(store: &mut S, bytes: &[u8]) -> usize
    requires { IsSome (S.kept store.old).opened }
    ensures within { result ≤ length bytes.now }
    ensures pushed { S.kept store.new ≡ with_bytes (take result bytes.now) (S.kept store.new).room (S.kept store.old) }
    ensures room { (S.kept store.old).room ≤ (S.kept store.new).room + result }
    ensures full { result < length bytes.now → (S.kept store.old).room < length bytes.now }
{
    if store.push_all(bytes).is_ok() {
        return bytes.len();
    }
    push_each(store, bytes)
}

/// Takes away what the directive doesn't give of the opened text: the white space at the end of that of a column.
fn cut_opened<S: Store>(store: &mut S, directive: &Directive)
    requires { IsSome (S.kept store.old).opened }
    ensures { S.kept store.new
        ≡ with_cut (length (closing_text directive.now (text_of (S.kept store.old).opened))) (S.kept store.old) }
{
    if !is_cut(directive) {
        return;
    }
    let count = closing_text(directive, store.opened()).len();
    store.cut_text(count);
}

/// Scans values by a format from bytes that are handed to it, as fscanf does (C11 7.21.6.2), into a store. It keeps no
/// byte of its input but the texts that it stores.
#[derive(Drop)]
pub struct Scanner<'f, S: Store> {
    directives: &'f [Directive],
    limit: u32,
    /// How many directives have passed.
    passed: usize,
    /// How far the next one has come.
    phase: Phase<'f>,
    tally: Tally,
    ended: Option<Stop>,
    met: Option<Ending>,
    store: S,
    ghost few: { length directives.now ≤ 4096 },
    ghost in_list: { passed ≤ length directives.now },
    ghost assigned: { tally.assigned + places_left directives.now passed ≤ 32 },
    ghost converted: { tally.converted ≤ passed },
    ghost bounded: { tally.used ≤ limit },

    // The slots are the store's, and those that were given something are among those of the directives that have
    // passed.
    ghost placed: { are_placed S.slots directives.now ≡ true },
    ghost apart: { are_apart (slots_of directives.now) ≡ true },
    ghost given: { are_among (slots_in (S.kept store).values) (slots_of (take passed directives.now)) ≡ true },

    // The opened text is that of the directive under way.
    ghost under_way: { opened_slot (S.kept store).opened ≡ slot_in phase },
    ghost own_slot: { is_text phase ≡ true → first_slot (drop passed directives.now) ≡ slot_in phase },

    // Nothing else is stored, and there is room for what will be.
    ghost joined: { (S.kept store).closed ≡ texts_in (S.kept store).values },
    ghost limited: { is_some (width_sum directives.now) ≡ true → is_limited phase ≡ true },
    ghost roomy: { is_some (width_sum directives.now) ≡ true
        → still_stored ended directives.now passed phase ≤ (S.kept store).room },
    ghost sized: { is_some (width_sum directives.now) ≡ true
        → length (buffer_of (S.kept store)) + still_stored ended directives.now passed phase
        ≤ unwrap_or (width_sum directives.now) 0 },
    ghost healthy: { is_some (width_sum directives.now) ≡ true → is_no_memory ended ≡ false },

    // Once the run has ended, no text is opened.
    ghost no_text: { is_some ended ≡ true → (S.kept store).opened ≡ None },
}

impl<'f, S: Store> Scanner<'f, S> {
    ghost use Rattle.sf_report.specs.Residual.{out_of};
    ghost use Rattle.sf_report.specs.Views.{report_by};
    ghost use Rattle.sf_report.specs.Runs.{RunReport, IsOpen};
    ghost use Rattle.sf_report.specs.Limits.{RunWithin, RunTold};
    ghost use Rattle.sf_run.specs.Standing.{Advances, Ends, Follows, Keeps, Passes, Stops, Opens, TakesAll, RefusesIn};
    ghost use Rattle.sf_run.specs.Standing.{RunsOut, turns_left, IsSettled, After, Gives, HasCome, has_ended};
    ghost use Rattle.sf_run.specs.Standing.{report_of, used_by, ran_out};
    ghost use Rattle.sf_report.specs.Memory.{HoldsTexts, HoldsValues, capacity_of};
    ghost use Rattle.sf_run.specs.Scanner.{kept_by, standing};
    ghost use Rattle.sf_run.specs.Tallies.{tally_of};

    /// Ends the run here. A text under way is taken away.
    fn stop(&mut self, stop: Stop)
        requires healthy { is_some (width_sum self.old.directives.now) ≡ true → is_no_memory (Some stop) ≡ false }
        ensures { Stops (standing self.new) (standing self.old) stop }
    {
        if self.phase.slot().is_some() {
            self.store.drop_text();
            self.phase = Phase::Skipping;
            self.ended = Some(stop);
            return;
        }
        self.phase = Phase::Skipping;
        self.ended = Some(stop);
    }

    /// The directive under way has failed.
    fn fail(&mut self, status: Status)
        requires current { self.old.passed < length self.old.directives.now }
        requires healthy { is_some (width_sum self.old.directives.now) ≡ true
            → is_no_memory (Some (record { status = status; at = self.old.passed + 1 })) ≡ false }
        ensures { Stops (standing self.new) (standing self.old) (record { status = status; at = self.old.passed + 1 }) }
    {
        let at = self.passed as u16 + 1;
        let stop = Stop { status, at };
        self.stop(stop);
    }

    /// The directive under way has passed, and stores nothing.
    fn pass(&mut self, directive: &Directive)
        requires current { slice_get self.old.directives.now self.old.passed ≡ Some directive.now }
        requires no_text { slot_in self.old.phase ≡ None }
        requires no_slot { slot_of directive.now ≡ None }
        ensures { Passes (standing self.new) (standing self.old) directive.now StepEnd.Passes }
    {
        let tally = self.tally.counted(directive, false);
        self.tally = tally;
        self.passed += 1;
        self.phase = Phase::Skipping;
    }

    /// The directive under way has passed, and gives its slot a number.
    fn set(&mut self, directive: &Directive, slot: u8, number: Number)
        requires current { slice_get self.old.directives.now self.old.passed ≡ Some directive.now }
        requires no_text { slot_in self.old.phase ≡ None }
        requires own { slot_of directive.now ≡ Some slot }
        ensures { Passes (standing self.new) (standing self.old) directive.now
            (StepEnd.Stores slot (datum_of_number number)) }
    {
        let tally = self.tally.counted(directive, true);
        self.store.set_number(slot, number);
        self.tally = tally;
        self.passed += 1;
        self.phase = Phase::Skipping;
    }

    /// The directive under way has passed, and gives its slot the opened text.
    fn close_text(&mut self, directive: &Directive, slot: u8)
        requires current { slice_get self.old.directives.now self.old.passed ≡ Some directive.now }
        requires text { slot_in self.old.phase ≡ Some slot }
        requires own { slot_of directive.now ≡ Some slot }
        ensures { Passes (standing self.new) (standing self.old) directive.now
            (StepEnd.Stores slot (Bytes (closing_text directive.now (text_of (kept_by self.old).opened)))) }
    {
        let tally = self.tally.counted(directive, true);
        cut_opened(&mut self.store, directive);
        self.store.close_text();
        self.tally = tally;
        self.passed += 1;
        self.phase = Phase::Skipping;
    }

    /// The directive under way is missing, and so are those that are missing with it: they store nothing.
    fn pass_over(&mut self, directive: &Directive)
        requires current { slice_get self.old.directives.now self.old.passed ≡ Some directive.now }
        requires no_text { slot_in self.old.phase ≡ None }
        ensures { Passes (standing self.new) (standing self.old) directive.now StepEnd.Misses }
    {
        let passed = self.passed + 1 + directive.more() as usize;
        self.passed = passed.min(self.directives.len());
        self.phase = Phase::Skipping;
    }

    /// The directive under way has passed, and gives its slot a float in place of the opened text.
    fn set_real(&mut self, directive: &Directive, slot: u8, real: Real)
        requires current { slice_get self.old.directives.now self.old.passed ≡ Some directive.now }
        requires text { slot_in self.old.phase ≡ Some slot }
        requires own { slot_of directive.now ≡ Some slot }
        ensures { Passes (standing self.new) (standing self.old) directive.now (StepEnd.Stores slot (RealOf real)) }
    {
        let tally = self.tally.counted(directive, true);
        self.store.drop_text();
        self.store.set_real(slot, real);
        self.tally = tally;
        self.passed += 1;
        self.phase = Phase::Skipping;
    }

    /// The directive under way has matched a float, whose bytes are the opened text.
    fn read_real(&mut self, directive: &Directive, slot: u8, kind: Kind)
        requires current { slice_get self.old.directives.now self.old.passed ≡ Some directive.now }
        requires waits { self.old.ended ≡ None }
        requires text { slot_in self.old.phase ≡ Some slot }
        requires own { slot_of directive.now ≡ Some slot }
        ensures ends { Ends (standing self.new) (standing self.old) directive.now
            (real_end slot (real_at kind (closing_text directive.now (text_of (kept_by self.old).opened)))) }
        ensures used { self.new.tally.used ≡ self.old.tally.used }
        ensures keeps { Keeps (standing self.new) (standing self.old) }
        ensures fewer { turns_left (standing self.new) < turns_left (standing self.old) }
        ensures memory { ran_out (standing self.new) ≡ false }
    {
        match real_of(kind, closing_text(directive, self.store.opened())) {
            Some(real) => self.set_real(directive, slot, real),
            None => self.fail(Status::OutOfRange),
        }
    }

    /// Ends the directive under way so.
    fn close(&mut self, directive: &Directive, finished: Finished)
        requires current { slice_get self.old.directives.now self.old.passed ≡ Some directive.now }
        requires waits { self.old.ended ≡ None }
        requires is { IsEnd directive.now self.old.phase finished }
        ensures ends { Ends (standing self.new) (standing self.old) directive.now
            (end_of (closing_text directive.now (text_of (kept_by self.old).opened)) finished) }
        ensures used { self.new.tally.used ≡ self.old.tally.used }
        ensures keeps { Keeps (standing self.new) (standing self.old) }
        ensures fewer { turns_left (standing self.new) < turns_left (standing self.old) }
        ensures memory { ran_out (standing self.new) ≡ false }
    {
        match finished {
            Finished::Fails(status) => self.fail(status),
            Finished::Passes => self.pass(directive),
            Finished::Stores {
                slot,
                kind,
                negative,
                magnitude,
            } => {
                let number = Number {
                    kind,
                    negative,
                    magnitude,
                };
                self.set(directive, slot, number)
            }
            Finished::Closes { slot } => self.close_text(directive, slot),
            Finished::Reads { slot, kind } => self.read_real(directive, slot, kind),
            Finished::Misses => self.pass_over(directive),
        }
    }

    /// Ends the run: every directive has passed.
    fn conclude(&mut self)
        requires current { slice_get self.old.directives.now self.old.passed ≡ None }
        requires waits { self.old.ended ≡ None }
        ensures same { (z : List ℕ) → Follows (standing self.new) (standing self.old) z z }
        ensures used { self.new.tally.used ≡ self.old.tally.used }
        ensures keeps { Keeps (standing self.new) (standing self.old) }
        ensures fewer { turns_left (standing self.new) < turns_left (standing self.old) }
        ensures memory { ran_out (standing self.new) ≡ false }
        ensures ended { IsSome self.new.ended }
    {
        let stop = Stop {
            status: Status::Done,
            at: 0,
        };
        self.stop(stop);
    }

    /// Begins the text of the directive under way.
    fn open(&mut self, directive: &'f Directive, slot: u8)
        requires current { slice_get self.old.directives.now self.old.passed ≡ Some directive.now }
        requires waits { self.old.ended ≡ None }
        requires no_text { slot_in self.old.phase ≡ None }
        requires own { text_slot directive.now ≡ Some slot }
        ensures opens { Opens (standing self.new) (standing self.old) slot }
        ensures left { left_before directive.now self.new.phase ≡ left_before directive.now self.old.phase }
    {
        let Directive::Conv(conversion) = directive else {
            return;
        };
        self.store.open_text(slot);
        self.phase = opened_phase(conversion, self.phase, slot);
    }

    /// Stores bytes of the text under way, after which the directive has come so far. Where the storing of one is
    /// refused, the run ends before it.
    fn store_all(&mut self, directive: &Directive, run: Run<'f>, item: &[u8]) -> bool
        requires current { slice_get self.old.directives.now self.old.passed ≡ Some directive.now }
        requires waits { self.old.ended ≡ None }
        requires text { IsSome (slot_in self.old.phase) }
        requires same_slot { slot_in run.phase ≡ slot_in self.old.phase }
        requires below { self.old.tally.used + (run.before + run.item) ≤ self.old.limit }
        requires all { run.item ≡ length item.now }
        requires left { LeftAfterAll directive.now self.old.phase run.phase (length item.now) }
        ensures taken { OnTrue result (TakesAll (standing self.new) (standing self.old) run.entry.phase
            (run.entry.before + run.entry.item) (longer item.now (kept_by self.old).opened)) }
        ensures refused { OnFalse result (RunsOut (standing self.new)
            (standing self.old) run.entry.before run.entry.item) }
    {
        let stored = store_bytes(&mut self.store, item);
        if stored < item.len() {
            self.tally.used += (run.before + stored) as u32;
            self.fail(Status::NoMemory);
            return false;
        }
        self.phase = run.phase;
        self.tally.used += (run.before + run.item) as u32;
        true
    }

    /// Begins the text of the directive under way with these bytes.
    fn open_all(&mut self, directive: &'f Directive, slot: u8, run: Run<'f>, item: &[u8]) -> bool
        requires current { slice_get self.old.directives.now self.old.passed ≡ Some directive.now }
        requires waits { self.old.ended ≡ None }
        requires no_text { slot_in self.old.phase ≡ None }
        requires own { text_slot directive.now ≡ Some slot }
        requires same_slot { slot_in run.phase ≡ Some slot }
        requires below { self.old.tally.used + (run.before + run.item) ≤ self.old.limit }
        requires all { run.item ≡ length item.now }
        requires left { LeftAfterAll directive.now self.old.phase run.phase (length item.now) }
        ensures taken { OnTrue result (TakesAll (standing self.new) (standing self.old) run.entry.phase
            (run.entry.before + run.entry.item) (opened_with (Some slot) item.now (kept_by self.old).opened)) }
        ensures refused { OnFalse result (RunsOut (standing self.new)
            (standing self.old) run.entry.before run.entry.item) }
    {
        self.open(directive, slot);
        self.store_all(directive, run, item)
    }

    /// Takes the bytes of the answer, after which the directive under way has come so far; `item` are those of its
    /// item. Where the storing of one is refused, the run ends before it.
    fn take_all(&mut self, directive: &'f Directive, run: Run<'f>, item: &[u8]) -> bool
        requires current { slice_get self.old.directives.now self.old.passed ≡ Some directive.now }
        requires waits { self.old.ended ≡ None }
        requires slot { IsNextSlot (text_slot directive.now) (slot_in self.old.phase) (slot_in run.phase) }
        requires below { self.old.tally.used + (run.before + run.item) ≤ self.old.limit }
        requires all { run.item ≡ length item.now }
        requires left { LeftAfterAll directive.now self.old.phase run.phase (length item.now) }
        ensures taken { OnTrue result (TakesAll (standing self.new) (standing self.old) run.entry.phase
            (run.entry.before + run.entry.item)
            (opened_with (slot_in run.entry.phase) item.now (kept_by self.old).opened)) }
        ensures refused { OnFalse result (RunsOut (standing self.new)
            (standing self.old) run.entry.before run.entry.item) }
        ensures text { OnFalse result (IsSome (slot_in run.entry.phase)) }
    {
        match run.phase.slot() {
            Some(_) if self.phase.slot().is_some() => self.store_all(directive, run, item),
            Some(slot) => self.open_all(directive, slot, run, item),
            None => {
                self.phase = run.phase;
                self.tally.used += (run.before + run.item) as u32;
                true
            }
        }
    }

    /// Hands the directive under way the bytes as far as the limit goes; it waits for more, or it has ended, or the run
    /// has.
    fn hand(&mut self, directive: &'f Directive, piece: &[u8]) -> Handed
        requires current { slice_get self.old.directives.now self.old.passed ≡ Some directive.now }
        requires waits { self.old.ended ≡ None }
        ensures same { IsSound directive.now → ran_out (standing self.new) ≡ false → (z : List ℕ)
            → Follows (standing self.new) (standing self.old) (drop result.taken piece.now ++ z) (piece.now ++ z) }
        ensures memory { IsSound directive.now → ran_out (standing self.new) ≡ true
            → RefusesIn (standing self.new) (standing self.old) piece.now }
        ensures used { self.new.tally.used ≡ self.old.tally.used + result.taken }
        ensures within { result.taken ≤ length piece.now }
        ensures keeps { Keeps (standing self.new) (standing self.old) }
        ensures ends { result.waits ≡ false → turns_left (standing self.new) < turns_left (standing self.old) }
        ensures goes { result.waits ≡ true → turns_left (standing self.new) ≡ turns_left (standing self.old) }
        ensures some { result.waits ≡ true → 0 < length piece.now → 0 < result.taken }
        ensures settled { result.waits ≡ true → IsSettled (standing self.new) }
        ensures full { ran_out (standing self.new) ≡ true → (kept_by self.old).room < length piece.now }
        ensures comes { IsSound directive.now → Advances (standing self.new)
            (standing self.old) piece.now result.taken }
    {
        let room = (self.limit - self.tally.used) as usize;
        // At the limit one byte more is handed over, to see whether it would be taken.
        let (front, _) = piece.split_at(piece.len().min(room.max(1)));
        let run = run_on(directive, self.phase, front, self.tally.used);
        let taken = run.before + run.item;
        if taken > room {
            self.fail(Status::TooLong);
            return Handed {
                taken: 0,
                waits: false,
            };
        }
        let used = self.tally.used;
        let (_, rest) = front.split_at(run.before);
        let (item, _) = rest.split_at(run.item);
        if !self.take_all(directive, run, item) {
            let taken = (self.tally.used - used) as usize;
            return Handed {
                taken,
                waits: false,
            };
        }
        let Some(finished) = run.ends else {
            return Handed { taken, waits: true };
        };
        self.close(directive, finished);
        Handed {
            taken,
            waits: false,
        }
    }

    /// Hands bytes to the run until it ends or waits for more. Answers how many were taken.
    fn push(&mut self, piece: &[u8]) -> usize
        ensures same { AreSound self.old.directives.now → ran_out (standing self.new) ≡ false → (z : List ℕ)
            → Follows (standing self.new) (standing self.old) z (piece.now ++ z) }
        ensures memory { AreSound self.old.directives.now → self.old.ended ≡ None → ran_out (standing self.new) ≡ true
            → RefusesIn (standing self.new) (standing self.old) piece.now }
        ensures used { self.new.tally.used ≡ self.old.tally.used + result }
        ensures within { result ≤ length piece.now }
        ensures all { IfNone self.new.ended (result ≡ length piece.now) }
        ensures nothing { IsSome self.old.ended → result ≡ 0 }
        ensures unchanged { IsSome self.old.ended → self.new ≡ self.old }
        ensures stays { IsSome self.old.ended → IsSome self.new.ended }
        ensures keeps { Keeps (standing self.new) (standing self.old) }
        ensures settled { IsSettled (standing self.new) }
        ensures full { ran_out (standing self.old) ≡ false → ran_out (standing self.new) ≡ true
            → (kept_by self.old).room < length piece.now }
        ensures comes { AreSound self.old.directives.now → Advances (standing self.new)
            (standing self.old) piece.now result }
    {
        let mut taken = 0;
        while self.ended.is_none() {
            let Some(directive) = self.directives.get(self.passed) else {
                self.conclude();
                return taken;
            };
            let (_, rest) = piece.split_at(taken);
            let handed = self.hand(directive, rest);
            taken += handed.taken;
            if handed.waits && taken == piece.len() {
                return taken;
            }
        }
        taken
    }

    /// Ends the directive under way where nothing follows.
    fn close_last(&mut self, directive: &Directive)
        requires current { slice_get self.old.directives.now self.old.passed ≡ Some directive.now }
        requires waits { self.old.ended ≡ None }
        ensures same { Follows (standing self.new) (standing self.old) [] [] }
        ensures used { self.new.tally.used ≡ self.old.tally.used }
        ensures keeps { Keeps (standing self.new) (standing self.old) }
        ensures fewer { turns_left (standing self.new) < turns_left (standing self.old) }
        ensures memory { ran_out (standing self.new) ≡ false }
    {
        let finished = finish(directive, self.phase, self.tally.used);
        self.close(directive, finished);
    }

    /// Ends each directive in turn: nothing follows.
    fn run_out(&mut self)
        requires waits { self.old.ended ≡ None }
        ensures same { Follows (standing self.new) (standing self.old) [] [] }
        ensures used { self.new.tally.used ≡ self.old.tally.used }
        ensures ended { IsSome self.new.ended }
        ensures keeps { Keeps (standing self.new) (standing self.old) }
        ensures memory { ran_out (standing self.new) ≡ false }
    {
        while self.ended.is_none() {
            match self.directives.get(self.passed) {
                None => self.conclude(),
                Some(directive) => self.close_last(directive),
            }
        }
    }

    /// A scanner of the directives over an empty store that was given nothing yet.
    fn start(directives: &'f [Directive], limit: u32, store: S) -> Self
        requires few { length directives.now ≤ 4096 }
        requires places { length (destinations_of directives.now) ≤ 32 }
        requires sound { AreSound directives.now }
        requires placed { are_placed S.slots directives.now ≡ true }
        requires apart { are_apart (slots_of directives.now) ≡ true }
        requires empty { S.kept store ≡ nothing_kept (S.kept store).room }
        requires roomy { IfSome (width_sum directives.now) (λ n. n ≤ (S.kept store).room) }
        ensures after { After directives.now limit (standing result) [] }
        ensures fresh { used_by (standing result) ≡ 0 }
        ensures holds { HoldsTexts directives.now (kept_by result) }
        ensures texts { has_ended (standing result) ≡ true → HoldsValues (kept_by result) }
        ensures room { capacity_of (S.kept store) ≤ capacity_of (kept_by result) }
    {
        let mut scanner = Scanner {
            directives,
            limit,
            passed: 0,
            phase: Phase::Skipping,
            tally: Tally::new(),
            ended: None,
            met: None,
            store,
        };
        scanner.push(&[]);
        scanner
    }

    /// Whether some byte would be taken next.
    pub fn state(&self) -> FeedState
        ensures waits { (ds : List Directive) (m : ℕ) (x : List ℕ) → After ds m (standing self.now) x
            → (result ≡ FeedState.Wait) ↔ (IsOpen ds x × (length x ≤ m)) }
        ensures ended { (ds : List Directive) (m : ℕ) (x : List ℕ) (ending : Ending)
            → Gives ds m (standing self.now) x ending → result ≡ FeedState.Ended }
        ensures exactly { (result ≡ FeedState.Ended) ↔ (has_ended (standing self.now) ≡ true) }
        ensures comes { (ds : List Directive) (m : ℕ) (x : List ℕ) → After ds m (standing self.now) x
            → result ≡ FeedState.Wait → HasCome ds x (standing self.now) }
    {
        match self.ended {
            None => FeedState::Wait,
            Some(_) => FeedState::Ended,
        }
    }

    /// Takes bytes until the run ends or the piece is used up. Takes nothing once the run has ended. A byte of a text
    /// whose storing is refused is not taken, and ends the run as NoMemory.
    pub fn feed(&mut self, piece: &[u8]) -> Fed
        ensures after { (ds : List Directive) (m : ℕ) (x : List ℕ) → ran_out (standing self.new) ≡ false
            → After ds m (standing self.old) x → After ds m (standing self.new) (x ++ piece.now) }
        ensures state { (ds : List Directive) (m : ℕ) (x : List ℕ) → ran_out (standing self.new) ≡ false
            → After ds m (standing self.old) x
            → (result.state ≡ FeedState.Wait) ↔ (IsOpen ds (x ++ piece.now) × (length (x ++ piece.now) ≤ m)) }
        ensures taken { (ds : List Directive) (m : ℕ) (x : List ℕ) (first second : Ending) (before after : RunReport)
            → ran_out (standing self.new) ≡ false
            → After ds m (standing self.old) x → RunWithin ds m x first before
            → RunWithin ds m (x ++ piece.now) second after
            → after.used ≡ before.used + result.taken }
        ensures within { result.taken ≤ length piece.now }
        ensures all { result.state ≡ FeedState.Wait → result.taken ≡ length piece.now }
        ensures used { used_by (standing self.new) ≡ used_by (standing self.old) + result.taken }
        ensures waits { (ds : List Directive) (m : ℕ) (x : List ℕ) → After ds m (standing self.old) x
            → result.state ≡ FeedState.Wait
            → used_by (standing self.new) ≡ length (x ++ piece.now) }
        ensures gives { (ds : List Directive) (m : ℕ) (x z : List ℕ) (ending : Ending)
            → After ds m (standing self.old) x → result.state ≡ FeedState.Ended
            → Gives ds m (standing self.new) ((x ++ piece.now) ++ z) ending }
        ensures no_text { (ds : List Directive) (m : ℕ) (y : List ℕ) → ran_out (standing self.new) ≡ true
            → After ds m (standing self.new) y → ⊥ }
        ensures stopped { result.state ≡ FeedState.Wait → ran_out (standing self.new) ≡ false }
        ensures holds { (ds : List Directive) (m : ℕ) (x : List ℕ) → After ds m (standing self.old) x
            → HoldsTexts ds (kept_by self.new) }
        ensures bounded { (ds : List Directive) (m : ℕ) (x : List ℕ) → IsSome (width_sum ds)
            → After ds m (standing self.old) x → ran_out (standing self.new) ≡ false }
        ensures nothing { (ds : List Directive) (m : ℕ) (x : List ℕ) (ending : Ending)
            → Gives ds m (standing self.old) x ending → result.taken ≡ 0 }
        ensures unchanged { (ds : List Directive) (m : ℕ) (x : List ℕ) (ending : Ending)
            → Gives ds m (standing self.old) x ending → self.new ≡ self.old }
        ensures exactly { (result.state ≡ FeedState.Ended) ↔ (has_ended (standing self.new) ≡ true) }
        ensures ended_takes { has_ended (standing self.old) ≡ true → result.taken ≡ 0 }
        ensures ended_stays { has_ended (standing self.old) ≡ true → self.new ≡ self.old }
        ensures texts { has_ended (standing self.new) ≡ true → HoldsValues (kept_by self.new) }
        ensures room { capacity_of (kept_by self.old) ≤ capacity_of (kept_by self.new) }
        ensures full { ran_out (standing self.old) ≡ false → ran_out (standing self.new) ≡ true
            → (kept_by self.old).room < length piece.now }
    {
        let taken = self.push(piece);
        Fed {
            taken,
            state: self.state(),
        }
    }

    /// Reports that no more bytes come, and why. Changes nothing once the run has ended.
    pub fn end(&mut self, ending: Ending)
        ensures gives { (ds : List Directive) (m : ℕ) (x : List ℕ) → After ds m (standing self.old) x
            → Gives ds m (standing self.new) x ending }
        ensures no_text { (ds : List Directive) (m : ℕ) (x y : List ℕ) → After ds m (standing self.old) x → IsOpen ds x
            → length x ≤ m → After ds m (standing self.new) y → ⊥ }
        ensures unchanged { (ds : List Directive) (m : ℕ) (x : List ℕ) (before : Ending)
            → Gives ds m (standing self.old) x before → self.new ≡ self.old }
        ensures used { used_by (standing self.new) ≡ used_by (standing self.old) }
        ensures holds { (ds : List Directive) (m : ℕ) (x : List ℕ) → After ds m (standing self.old) x
            → HoldsTexts ds (kept_by self.new) }
        ensures memory { ran_out (standing self.new) ≡ ran_out (standing self.old) }
        ensures ended { has_ended (standing self.new) ≡ true }
        ensures ended_stays { has_ended (standing self.old) ≡ true → self.new ≡ self.old }
        ensures texts { HoldsValues (kept_by self.new) }
        ensures room { capacity_of (kept_by self.old) ≤ capacity_of (kept_by self.new) }
    {
        if self.ended.is_none() {
            self.met = Some(ending);
            self.run_out();
        }
    }

    /// The report, once the run has ended.
    pub fn report(&self) -> Option<Report<'_, S>>
        ensures gives { (ds : List Directive) (m : ℕ) (x : List ℕ) (ending : Ending)
            → Gives ds m (standing self.now) x ending → IsSomeAnd result (RunTold ds m x ending) }
        ensures after { (ds : List Directive) (m : ℕ) (x : List ℕ) (ending : Ending) → After ds m (standing self.now) x
            → IfSome result (RunWithin ds m x ending) }
        ensures none { (ds : List Directive) (m : ℕ) (x : List ℕ) → After ds m (standing self.now) x → IsNone result
            → IsOpen ds x × (length x ≤ m) }
        ensures values { IfSome result (λ r. r.values ≡ (kept_by self.now).values) }
        ensures memory { IfSome result (λ r. is_memory_status r.status ≡ ran_out (standing self.now)) }
        ensures exactly { result ≡ report_of (standing self.now) }
    {
        let stop = self.ended?;
        Some(Report::new(self.outcome(stop), &self.store))
    }

    /// What a run that has ended gave. A scanner whose run hasn't is given back.
    pub fn into_scanned(self) -> Result<Scanned<S>, Self>
        ensures gives { (ds : List Directive) (m : ℕ) (x : List ℕ) (ending : Ending)
            → Gives ds m (standing self.entry) x ending → IsOkAnd result (λ s. RunTold ds m x ending s.report) }
        ensures after { (ds : List Directive) (m : ℕ) (x : List ℕ) (ending : Ending)
            → After ds m (standing self.entry) x → IfOk result (λ s. RunWithin ds m x ending s.report) }
        ensures waits { (ds : List Directive) (m : ℕ) (x : List ℕ) → After ds m (standing self.entry) x → IsErr result
            → IsOpen ds x × (length x ≤ m) }
        ensures used { IfOk result (λ s. s.report.used ≡ used_by (standing self.entry)) }
        ensures memory { IfOk result (λ s. is_memory_status s.report.status ≡ ran_out (standing self.entry)) }
        ensures kept { IfOk result (λ s. s.kept ≡ kept_by self.entry) }
        ensures back { IfErr result (λ s. s ≡ self.entry) }
        ensures exactly { option_map (λ s. s.report) (result_ok result) ≡ report_of (standing self.entry) }
    {
        match self.ended {
            None => Err(self),
            Some(stop) => Ok(Scanned::new(self.outcome(stop), self.store)),
        }
    }

    /// The store as it stands, to be used again, whatever the run came to.
    pub fn into_store(self) -> S
        ensures { S.kept result ≡ kept_by self.entry }
    {
        let Scanner { store, .. } = self;
        store
    }

    fn outcome(&self, stop: Stop) -> Outcome
        ensures { (values : List Assigned) → report_by result values
            ≡ record (out_of stop.status stop.at (tally_of self.now.tally values)) { met = self.now.met } }
    {
        Outcome {
            status: stop.status,
            at: stop.at,
            assigned: self.tally.assigned,
            converted: self.tally.converted,
            used: self.tally.used,
            met: self.met,
        }
    }
}

impl<'f> Scanner<'f, HeapStore> {
    ghost use Rattle.sf_run.specs.Standing.{After, has_ended, used_by};
    ghost use Rattle.sf_report.specs.Memory.{HoldsTexts, HoldsValues, capacity_of};
    ghost use Rattle.sf_run.specs.Scanner.{kept_by, standing};

    /// A scanner that was given nothing yet, with a store that grows. The run consumes at most `limit` bytes. Where the
    /// format has a width sum, so much room is made here, and no run ends NoMemory.
    ///
    /// Refuses a limit above 2147483647 with BadLimit; then it answers NoMemory where memory was refused.
    pub fn new(alloc: Global, format: &'f ScanFormat, limit: u32) -> Result<Self, StartFault>
        ensures after { IfOk result (λ s. After format.now limit (standing s) []) }
        ensures fresh { IfOk result (λ s. used_by (standing s) ≡ 0) }
        ensures holds { IfOk result (λ s. HoldsTexts format.now (kept_by s)) }
        ensures texts { IfOk result (λ s. has_ended (standing s) ≡ true → HoldsValues (kept_by s)) }
        ensures limit { IsErrOf result StartFault.BadLimit ↔ (2147483647 < limit) }
        ensures memory { IfErr result (λ fault. (fault ≡ StartFault.BadLimit) ⊎ (fault ≡ StartFault.NoMemory)) }
        ensures room { IfOk result (λ s. unwrap_or (width_sum format.now) 0 ≤ capacity_of (kept_by s)) }
    {
        if limit > MOST_BYTES {
            return Err(StartFault::BadLimit);
        }
        let reserve = format.width_sum().unwrap_or(0);
        let Ok(store) = HeapStore::new(alloc, reserve) else {
            return Err(StartFault::NoMemory);
        };
        Ok(Scanner::on_heap(format, limit, store))
    }

    /// As `new`, but over a store that was used before: what it keeps is taken away, and its memory is used again. Only
    /// where that has less room than the format's width sum is other memory asked for.
    ///
    /// Refuses a limit above 2147483647 with BadLimit; then it answers NoMemory where memory was refused.
    pub fn over(
        alloc: Global,
        mut store: HeapStore,
        format: &'f ScanFormat,
        limit: u32,
    ) -> Result<Self, StartFault>
        ensures after { IfOk result (λ s. After format.now limit (standing s) []) }
        ensures fresh { IfOk result (λ s. used_by (standing s) ≡ 0) }
        ensures holds { IfOk result (λ s. HoldsTexts format.now (kept_by s)) }
        ensures texts { IfOk result (λ s. has_ended (standing s) ≡ true → HoldsValues (kept_by s)) }
        ensures limit { IsErrOf result StartFault.BadLimit ↔ (2147483647 < limit) }
        ensures memory { IfErr result (λ fault. (fault ≡ StartFault.BadLimit) ⊎ (fault ≡ StartFault.NoMemory)) }
        ensures room { IfOk result (λ s. unwrap_or (width_sum format.now) 0 ≤ capacity_of (kept_by s)) }
        ensures enough { limit ≤ 2147483647 → unwrap_or (width_sum format.now) 0
            ≤ store.room + length (buffer_of store) → IsOk result }
        ensures as_much { IfOk result (λ s. capacity_of store ≤ capacity_of (kept_by s)) }
    {
        store.clear();
        let reserve = format.width_sum().unwrap_or(0) as usize;
        if limit > MOST_BYTES || store.room() < reserve {
            return Scanner::new(alloc, format, limit);
        }
        Ok(Scanner::on_heap(format, limit, store))
    }

    /// A scanner of the format over an empty store with room for its width sum.
    fn on_heap(format: &'f ScanFormat, limit: u32, store: HeapStore) -> Self
        requires empty { store ≡ nothing_kept store.room }
        requires roomy { IfSome (width_sum format.now) (λ n. n ≤ store.room) }
        ensures after { After format.now limit (standing result) [] }
        ensures fresh { used_by (standing result) ≡ 0 }
        ensures holds { HoldsTexts format.now (kept_by result) }
        ensures texts { has_ended (standing result) ≡ true → HoldsValues (kept_by result) }
        ensures room { capacity_of store ≤ capacity_of (kept_by result) }
    {
        Scanner::start(format.directives(), limit, store)
    }
}

impl<'f, const CAP: usize, const SLOTS: usize> Scanner<'f, FixedStore<CAP, SLOTS>> {
    ghost use Rattle.sf_run.specs.Standing.{After, has_ended, used_by};
    ghost use Rattle.sf_report.specs.Memory.{HoldsTexts, HoldsValues, capacity_of};
    ghost use Rattle.sf_run.specs.Scanner.{kept_by, standing};

    /// A scanner that was given nothing yet, with a store of fixed capacity. The run consumes at most `limit` bytes. It
    /// takes no memory, and no run ends NoMemory.
    ///
    /// Refuses a limit above 2147483647 with BadLimit, then a format without a width sum with Unbounded, then one whose
    /// width sum is above CAP or that has more than SLOTS destinations with TooSmall.
    pub fn fixed(format: &'f ScanFormat, limit: u32) -> Result<Self, StartFault>
        ensures after { IfOk result (λ s. After format.now limit (standing s) []) }
        ensures fresh { IfOk result (λ s. used_by (standing s) ≡ 0) }
        ensures holds { IfOk result (λ s. HoldsTexts format.now (kept_by s)) }
        ensures texts { IfOk result (λ s. has_ended (standing s) ≡ true → HoldsValues (kept_by s)) }
        ensures limit { IsErrOf result StartFault.BadLimit ↔ (2147483647 < limit) }
        ensures unbounded { IsErrOf result StartFault.Unbounded ↔
            ((limit ≤ 2147483647) × (width_sum format.now ≡ None)) }
        ensures small { IsErrOf result StartFault.TooSmall ↔ ((limit ≤ 2147483647)
            × IsSomeAnd (width_sum format.now) (λ n. (CAP < n) ⊎ (SLOTS < length (destinations_of format.now)))) }
        ensures memory { IsErrOf result StartFault.NoMemory → ⊥ }
    {
        if limit > MOST_BYTES {
            return Err(StartFault::BadLimit);
        }
        let Some(sum) = format.width_sum() else {
            return Err(StartFault::Unbounded);
        };
        if CAP < sum as usize || SLOTS < format.destinations() as usize {
            return Err(StartFault::TooSmall);
        }
        Ok(Scanner::start(format.directives(), limit, FixedStore::new()))
    }
}
