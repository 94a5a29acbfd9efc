//! Texts for the error output.
ghost use Rattle.std.specs.Prelude.{◌≡◌, ◌++◌, false, option_map};
ghost use Rattle.std.specs.Io.KnownBytes.{Keeps};
ghost use Rattle.sf_records.specs.by_lines.Telling.{Tells, faults_by};
ghost use Rattle.sf_command.specs.console.Fronts.{in_front};
ghost use Rattle.sf_command.specs.console.Saying.{Says};

use crate::console::console::Console;
use crate::console::fronts::after_sf;
use sf_print::Sink;

/// Hands the error output a text, after what waits in the output. A fault of it is ignored.
pub fn say<K: Sink, E, C: Console<K, E>>(out: &mut K, err: &mut E, text: &[u8])
    ensures { Says C.Hands C.said C.unsaid text.now out.old out.new err.old err.new }
{
    C::hand_on(out);
    match C::write(out, err, text) {
        Ok(()) => {}
        Err(_) => {}
    }
}

/// Hands the error output two texts, one after the other. Whether it failed.
fn write_both<K: Sink, E, C: Console<K, E>>(out: &K, err: &mut E, one: &[u8], other: &[u8]) -> bool
    requires { C.IsHandedOn out.now }
    ensures told { Tells false result (C.said err.old) (C.said err.new) (one.now ++ other.now) }
    ensures faults { C.unsaid err.new ≡ faults_by false result (C.unsaid err.old) }
{
    C::write(out, err, one).is_err() || C::write(out, err, other).is_err()
}

/// Hands the error output a line, with the name of a file in front, if it has one. Whether it failed.
fn write_line<K: Sink, E, C: Console<K, E>>(
    out: &K,
    err: &mut E,
    file: Option<&str>,
    line: &[u8],
) -> bool
    requires { C.IsHandedOn out.now }
    ensures told { Tells false result (C.said err.old) (C.said err.new)
        (in_front (option_map (λ given. given.now) file.entry) line.now) }
    ensures faults { C.unsaid err.new ≡ faults_by false result (C.unsaid err.old) }
{
    match file {
        None => C::write(out, err, line).is_err(),
        Some(name) => {
            write_both::<K, E, C>(out, err, b"sf: ", name.as_bytes())
                || write_both::<K, E, C>(out, err, b": ", after_sf(line))
        }
    }
}

/// Hands the error output a line, after what waits in the output, and then the notes on it. The name of a file stands
/// in front of the line, if it has one. Whether it failed.
pub fn write_told<K: Sink, E, C: Console<K, E>>(
    out: &mut K,
    err: &mut E,
    file: Option<&str>,
    line: &[u8],
    notes: &[u8],
) -> bool
    ensures told { Tells false result (C.said err.old) (C.said err.new)
        (in_front (option_map (λ given. given.now) file.entry) line.now ++ notes.now) }
    ensures faults { C.unsaid err.new ≡ faults_by false result (C.unsaid err.old) }
    ensures hands { C.Hands out.old out.new }
    ensures taken { Keeps (K.contents out.old) (K.contents out.new) }
    ensures sink { K.failures out.new ≡ K.failures out.old }
{
    C::hand_on(out);
    write_line::<K, E, C>(out, err, file, line) || C::write(out, err, notes).is_err()
}

/// The same. A fault of the error output is ignored.
pub fn tell<K: Sink, E, C: Console<K, E>>(
    out: &mut K,
    err: &mut E,
    file: Option<&str>,
    line: &[u8],
    notes: &[u8],
)
    ensures { Says C.Hands C.said C.unsaid (in_front (option_map (λ given. given.now) file.entry) line.now ++ notes.now)
        out.old out.new err.old err.new }
{
    let _ = write_told::<K, E, C>(out, err, file, line, notes);
}
