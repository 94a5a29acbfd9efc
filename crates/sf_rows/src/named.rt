//! A row of values, as a program would write it: a name with its number.
use arrayvec::ArrayVec;
use sf_base::{Kind, Store, Value};
use sf_read::{Row, RowFault};
use sf_run::Report;
use std::alloc::Global;

/// A name with its number.
#[derive(Drop)]
pub struct Named {
    pub number: i32,
    pub name: Vec<u8>,
}

impl Row for Named {
    ghost use Rattle.std.specs.Prelude.{[], ◌∷◌};
    ghost use Rattle.sf_base.specs.declared.values.Kind.TheVariants.{I32, Text};
    ghost use Rattle.sf_base.specs.Data.{Number, Bytes};

    ghost kinds = { I32 ∷ Text ∷ [] };

    ghost listed = { λ r. Number I32 r.number ∷ Bytes r.name.items ∷ [] };

    fn slots() -> u8 {
        2
    }

    fn shape(slot: u8) -> Option<Kind> {
        match slot {
            1 => Some(Kind::I32),
            2 => Some(Kind::Text),
            _ => None,
        }
    }

    fn may_miss(_slot: u8) -> bool {
        false
    }

    fn from_report<S: Store>(alloc: Global, report: &Report<'_, S>) -> Result<Self, RowFault> {
        let (Some(Value::I32(number)), Some(Value::Text(text))) = (report.value(1), report.value(2))
        else {
            unreachable!();
        };
        let mut name = Vec::new(alloc);
        match name.extend_from_slice(text) {
            Ok(()) => Ok(Named { number, name }),
            Err(_) => Err(RowFault::NoMemory),
        }
    }

    fn with_values(&self) -> ArrayVec<Value<'_>, 32> {
        let mut values = ArrayVec::new();
        values.push(Value::I32(self.number));
        values.push(Value::Text(&self.name));
        values
    }
}
