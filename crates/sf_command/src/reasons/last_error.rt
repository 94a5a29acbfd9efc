//! Sources that remember why they failed.
ghost use Rattle.std.specs.Prelude.{◌≡◌, ◌<◌, Option, IsSome};
ghost use Rattle.std.specs.declared.io.Error.{Error};

use sf_read::Source;
use std::io;

/// A source that remembers why it failed.
pub trait LastError: Source {
    // Why the last of its reads failed that did, or why it couldn't be opened, where that is known.
    ghost last_error: { Self → Option Error };

    /// Why the last of its reads failed that did, or why it couldn't be opened. None where nothing failed.
    fn last_error(&self) -> Option<io::Error>
        ensures value { result ≡ last_error self.now }
        ensures known { 0 < Self.failures self.now → IsSome result };
}
