//! Where the lines that fail are reported.
ghost use Rattle.std.specs.Prelude.{◌≡◌, ℕ, List, Option, Bool, true, OnOk, OnErr};
ghost use Rattle.std.specs.Io.KnownBytes.{Keeps};
ghost use Rattle.sf_records.specs.by_lines.Telling.{Tells, faults_by};
ghost use Rattle.sf_records.specs.declared.by_lines.end.LineFault.{LineFault};

use crate::by_lines::end::LineFault;
use sf_print::Sink;
use std::alloc::AllocError;

/// Reports the lines that don't match, beside a sink that takes the others. Once it has failed it writes nothing more.
pub trait Teller<K: Sink> {
    // Whether this is what it writes of each line, by its number, counted from 1, what was read of it, and why it
    // doesn't match.
    ghost says: { Self → (ℕ → List ℕ → LineFault → List ℕ) → Type 0 };

    // There is something that it writes of lines.
    ghost some: { (teller : Self) → ∥ ((telling : ℕ → List ℕ → LineFault → List ℕ) × says teller telling) ∥₁ };

    // All that it wrote, where that is known.
    ghost told: { Self → Option (List ℕ) };

    // Whether something was not written in full, or not written.
    ghost failed: { Self → Bool };

    // The faults of what it writes to, as a sink counts its own.
    ghost faults: { Self → ℕ };

    // What of it stays as it is, such as the name of a reference that it holds.
    ghost Kept: { Type 0 } = { Unit {0} };

    ghost kept: { Self → Self.Kept };

    /// Reports that the line with this number, counted from 1, doesn't match. It is handed what was read of the line,
    /// without its newline: all of it, or, where it is too long, as many bytes as the limit has; and the sink, so that
    /// what waits there can be handed on first. Err where memory for what is to be written was refused; then nothing
    /// was written, and the sink is as it was.
    fn tell(
        &mut self,
        to: &mut K,
        number: u64,
        line: &[u8],
        fault: LineFault,
    ) -> Result<(), AllocError>
        ensures same { (telling : ℕ → List ℕ → LineFault → List ℕ) → says self.old telling → says self.new telling }
        ensures kept { kept self.new ≡ kept self.old }
        ensures told { (telling : ℕ → List ℕ → LineFault → List ℕ) → says self.old telling
            → OnOk result (Tells (failed self.old) (failed self.new) (told self.old) (told self.new)
            (telling number line.now fault)) }
        ensures untold { OnErr result (self.new ≡ self.old) }
        ensures stays { failed self.old ≡ true → failed self.new ≡ true }
        ensures faults { faults self.new ≡ faults_by (failed self.old) (failed self.new) (faults self.old) }
        ensures taken { Keeps (K.contents to.old) (K.contents to.new) }
        ensures untaken { OnErr result (to.new ≡ to.old) }
        ensures sink { K.failures to.new ≡ K.failures to.old };
}
