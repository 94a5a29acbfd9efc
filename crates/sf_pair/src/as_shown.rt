//! Values that are printed.
ghost use Rattle.std.specs.Prelude.{◌≡◌, ◌↔◌, IfSome, IsSome};
ghost use Rattle.sf_base.specs.declared.values.Kind.TheVariants.{Text};
ghost use Rattle.sf_base.specs.Data.{Bytes, Datum, datum_of, datum_of_number, datum_of_shown, kind_of, number_in};

use sf_base::{Number, Shown, Value};

/// A value, as it is printed: with the Rust type that holds it, or without.
pub trait AsShown {
    /// What it is.
    ghost datum: { Self → Datum };

    /// The value without the Rust type that holds it.
    fn as_shown(&self) -> Shown<'_>
        ensures { datum_of_shown result ≡ datum self.now };

    /// The number that it is. Of another value it answers None.
    fn as_number(&self) -> Option<Number>
        ensures exactly { IsSome result ↔ IsSome (number_in (datum self.now)) }
        ensures value { IfSome result (λ number. datum_of_number number ≡ datum self.now) };

    /// The text that it is. Of another value it answers None.
    fn as_text(&self) -> Option<&[u8]>
        ensures exactly { IsSome result ↔ (kind_of (datum self.now) ≡ Text) }
        ensures value { IfSome result (λ bytes. Bytes bytes.now ≡ datum self.now) };
}

impl AsShown for Value<'_> {
    ghost datum = { datum_of };

    #[inline(always)]
    fn as_shown(&self) -> Shown<'_> {
        (*self).shown()
    }

    #[inline(always)]
    fn as_number(&self) -> Option<Number> {
        match (*self).shown() {
            Shown::Number(number) => Some(number),
            Shown::Text(_) | Shown::Real(_) => None,
        }
    }

    #[inline(always)]
    fn as_text(&self) -> Option<&[u8]> {
        match *self {
            Value::Text(bytes) => Some(bytes),
            _ => None,
        }
    }
}

impl AsShown for Shown<'_> {
    ghost datum = { datum_of_shown };

    #[inline(always)]
    fn as_shown(&self) -> Shown<'_> {
        *self
    }

    #[inline(always)]
    fn as_number(&self) -> Option<Number> {
        match self {
            Shown::Number(number) => Some(*number),
            Shown::Text(_) | Shown::Real(_) => None,
        }
    }

    #[inline(always)]
    fn as_text(&self) -> Option<&[u8]> {
        match self {
            Shown::Text(bytes) => Some(bytes),
            Shown::Number(_) | Shown::Real(_) => None,
        }
    }
}
