//! The names of formats.
ghost use Rattle.std.specs.Prelude.{◌≡◌};
ghost use Rattle.sf_messages.specs.Names.{name_text};

use crate::fault::FormatName;

/// How a format is named.
pub(crate) fn name_text(name: FormatName) -> &'static str
    ensures { result.now ≡ name_text name }
{
    match name {
        FormatName::Scan => "scan format",
        FormatName::Print => "print format",
    }
}
