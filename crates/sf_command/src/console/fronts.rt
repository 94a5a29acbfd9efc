//! The name of a file in front of what is said of it.
ghost use Rattle.std.specs.Prelude.{◌≡◌, drop, option_map, string_bytes};
ghost use Rattle.sf_command.specs.console.Fronts.{file_name};

use sf_words::Order;

/// The name of the file that is read, as it was given, if one is.
pub fn file_name(order: &Order) -> Option<&str>
    ensures { option_map (λ given. given.now) result ≡ file_name order.entry.now }
{
    let place = order.file?;
    match order.files.get(place) {
        Some(name) => Some(name.as_str()),
        None => None,
    }
}

/// What follows the first four bytes of a line, `sf: `.
pub(crate) fn after_sf(line: &[u8]) -> &[u8]
    ensures { result.now ≡ drop 4 line.entry.now }
{
    line.get(4..).unwrap_or(&[])
}
