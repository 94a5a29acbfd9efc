//! Sources that are known by a name, so that what is left in one is told of what was lent.
ghost use Rattle.std.specs.Prelude.{◌≡◌, ℕ, Option, is_err, if◌then◌else◌};
ghost use Rattle.std.specs.declared.io.Error.{Error};
ghost use Rattle.std.specs.Io.{ReadsAtMost};
ghost use Rattle.std.specs.Io.KnownBytes.{ReadConsumes};
ghost use Rattle.sf_read.specs.source.Counts.{counted_on};

use crate::console::Reasons;
use sf_read::{Source, SourceFault};
use std::io;
use std::marker::{Brand, PhantomData};

/// A name of a source. A call picks it.
pub(crate) trait Name {
    ghost name: { ℕ };
}

impl Name for Brand {
    ghost name = { 0 };
}

/// A source that keeps its name, whatever is read of it.
pub(crate) trait Named: Source {
    ghost name_of: { Self → ℕ };

    /// Reads as `read` does.
    fn read_on(&mut self, buf: &mut [u8]) -> Result<usize, SourceFault>
        ensures bound { ReadsAtMost result buf.new }
        ensures bytes { ReadConsumes (Self.to_come self.old) (Self.to_come self.new) result buf.new }
        ensures reads { Self.reads self.new ≡ counted_on (Self.reads self.old) }
        ensures failures { Self.failures self.new ≡ (if is_err result then counted_on
            (Self.failures self.old) else Self.failures self.old) }
        ensures same { name_of self.new ≡ name_of self.old };
}

impl<S: Source> Named for &mut S {
    ghost name_of = { λ s. s.ghost_name };

    fn read_on(&mut self, buf: &mut [u8]) -> Result<usize, SourceFault> {
        Source::read(&mut **self, buf)
    }
}

/// A source that has this name.
#[derive(Drop)]
pub(crate) struct Tied<R: Named, B: Name> {
    source: R,
    of: PhantomData<B>,
    ghost known: { R.name_of source ≡ B.name },
}

impl<R: Named, B: Name> Tied<R, B> {
    /// The source has the name that the call picks.
    pub(crate) fn new(source: R) -> Self
        requires { B.name ≡ R.name_of source }
        ensures { result.source ≡ source }
    {
        Tied {
            source,
            of: PhantomData,
        }
    }

    /// The source, given back.
    pub(crate) fn into_source(self) -> R
        ensures source { result ≡ self.source }
        ensures known { R.name_of result ≡ B.name }
    {
        self.source
    }
}

impl<R: Named, B: Name> Source for Tied<R, B> {
    ghost to_come = { λ s. R.to_come s.source };

    ghost reads = { λ s. R.reads s.source };

    ghost failures = { λ s. R.failures s.source };

    fn read(&mut self, buf: &mut [u8]) -> Result<usize, SourceFault> {
        self.source.read_on(buf)
    }
}

/// What is known of a source that has a name.
pub(crate) struct ByNamed<Q>(PhantomData<Q>);

impl<R: Named, B: Name, Q: Reasons<R>> Reasons<Tied<R, B>> for ByNamed<Q> {
    ghost why_unread = { λ s. Q.why_unread s.source };

    fn why_unread(source: &Tied<R, B>) -> Option<io::Error> {
        Q::why_unread(&source.source)
    }
}
