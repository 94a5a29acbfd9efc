//! The names of kinds.
ghost use Rattle.std.specs.Prelude.{◌≡◌};
ghost use Rattle.sf_arguments.specs.Names.{kind_text};

use sf_base::Kind;

/// The name of a kind, as a fault of a value has it.
pub fn kind_text(kind: Kind) -> &'static str
    ensures { result.now ≡ kind_text kind }
{
    match kind {
        Kind::I8 => "i8",
        Kind::I16 => "i16",
        Kind::I32 => "i32",
        Kind::I64 => "i64",
        Kind::U8 => "u8",
        Kind::U16 => "u16",
        Kind::U32 => "u32",
        Kind::U64 => "u64",
        Kind::Text => "text",
        Kind::F32 => "f32",
        Kind::F64 => "f64",
    }
}
