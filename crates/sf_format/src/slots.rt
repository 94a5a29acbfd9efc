//! The destinations of a scan format, or the values of a print format, as far as it was read.
ghost use Rattle.std.specs.Prelude.{◌≡◌, ◌+◌, ◌<◌, ◌≤◌, ℕ, List, true, false, not, ◌&&◌, nat_lt, None, length, IfOk};
ghost use Rattle.std.specs.List.{AllByRecursion, list_any};
ghost use Rattle.sf_base.specs.Bytes.{magnitude};
ghost use Rattle.sf_format.specs.Digits.{is_decimal};
ghost use Rattle.sf_format.specs.Pieces.{Opening};
ghost use Rattle.sf_format.specs.Lists.{is_written};
ghost use Rattle.sf_format.specs.Slots.{slot_of};
ghost use Rattle.sf_format.specs.Rules.{first_of, alike, slot_rules};
ghost use Rattle.sf_format.specs.Passing.{opening_of, fault_in, Holds, PushesBy};

use crate::fault::{FormatFault, FormatWhy};
use crate::opening::{Written, capped};
use crate::rule_table::{fault_by, rule};

/// How many destinations or values there are, and whether they have numbers.
#[derive(Clone, Copy)]
pub struct Slots {
    pub count: u16,
    pub numbered: bool,
}

/// No destination, before the first part.
pub const NO_SLOTS: Slots = Slots {
    count: 0,
    numbered: false,
};

/// Whether one destination of the two has a number and the other has none.
fn mixes(slots: Slots, written: &Written) -> bool
    ensures { (earlier : List Opening) → Holds slots earlier
        → result ≡ (not written.now.star && list_any (λ e. not (alike e (opening_of written.now))) earlier) }
{
    !written.star && slots.count > 0 && slots.numbered == written.number.is_empty()
}

/// Whether the destination is one too many without a number.
fn is_beyond(slots: Slots, written: &Written) -> bool
    ensures { result ≡ (not written.now.star && not (is_written written.now.number.now) && nat_lt 31 slots.count) }
{
    !written.star && written.number.is_empty() && slots.count > 31
}

/// The first fault of one more destination, whose `%` stands at the place.
fn slot_fault(slots: Slots, written: &Written, at: u16) -> Option<FormatFault>
    ensures first { (earlier : List Opening) → Holds slots earlier
        → fault_in result ≡ first_of (slot_rules earlier at (opening_of written.now)) }
    ensures room { result ≡ None → (not written.now.star && not (is_written written.now.number.now)
        && nat_lt 31 slots.count) ≡ false }
{
    fault_by(&[
        rule(FormatWhy::MixedNumbering, at, mixes(slots, written)),
        rule(
            FormatWhy::TooManyDestinations,
            at,
            is_beyond(slots, written),
        ),
    ])
}

/// The slot of one more destination, whose `%` stands at the place, and the destinations with it; or its first fault. A
/// suppressed one has no slot.
pub fn pushed(slots: Slots, written: &Written, at: u16) -> Result<(Option<u8>, Slots), FormatFault>
    requires count { slots.count ≤ 4096 }
    requires digits { AllByRecursion (λ b. is_decimal b ≡ true) written.now.number.now }
    requires bound { magnitude 10 written.now.number.now ≤ 32 }
    ensures slot { IfOk result (λ pushed. pushed.0 ≡ slot_of (1 + slots.count) (opening_of written.now)) }
    ensures pushed { (earlier : List Opening) → Holds slots earlier
        → PushesBy earlier at (opening_of written.now) result }
{
    if let Some(fault) = slot_fault(slots, written, at) {
        return Err(fault);
    }
    if written.star {
        return Ok((None, slots));
    }
    let numbered = !written.number.is_empty();
    let count = slots.count + 1;
    let slot = if numbered {
        capped(written.number) as u8
    } else {
        count as u8
    };
    Ok((Some(slot), Slots { count, numbered }))
}
