//! The form of a matching sequence: decimal, hexadecimal, an infinity or no number.
ghost use Rattle.std.specs.Prelude.{◌≡◌, ◌⊎◌, ℕ, ◌≤◌, ◌∷◌, ◌++◌, List, length, drop, true, IsTrue};
ghost use Rattle.sf_float_read.specs.item.Sequences.{IsFloat, IsUnsigned, IsNumber};
ghost use Rattle.sf_float_read.specs.item.Parts.{IsSign, IsInfinity, IsNan};
ghost use Rattle.sf_float_read.specs.value.Values.{is_minus};
ghost use Rattle.sf_float_read.specs.value.Forms.{IsForm, IsSplit};

/// The form of what follows the sign.
#[derive(Clone, Copy, Debug, PartialEq, Eq)]
pub(crate) enum Form {
    Decimal,
    Hexadecimal,
    Infinity,
    Nan,
}

/// Whether there is a minus, and where the size begins.
pub(crate) fn split(item: &[u8]) -> (bool, usize)
    requires { IsFloat item.now }
    ensures start { result.1 ≤ length item.now }
    ensures parts { IsSplit item.now result.0 (drop result.1 item.now) }
{
    match item[0] {
        b'-' => (true, 1),
        b'+' => (false, 1),
        _ => (false, 0),
    }
}

pub(crate) fn form_of(size: &[u8]) -> Form
    requires { IsUnsigned size.now }
    ensures { IsForm result size.now }
{
    match size[0].to_ascii_lowercase() {
        b'i' => Form::Infinity,
        b'n' => Form::Nan,
        b'0' if size.len() > 1 && size[1].to_ascii_lowercase() == b'x' => Form::Hexadecimal,
        _ => Form::Decimal,
    }
}
