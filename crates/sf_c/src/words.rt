//! The words for a status.
ghost use Rattle.std.specs.Prelude.{◌≡◌, length, take, drop};
ghost use Rattle.sf_c.specs.Words.{words_for};

use crate::print::put_front;
use sf_run::Status;

/// The statuses by their numbers.
static STATUSES: [Status; 6] = [
    Status::Done,
    Status::InputFailure,
    Status::MatchingFailure,
    Status::OutOfRange,
    Status::TooLong,
    Status::NoMemory,
];

/// As `sf_c_words`.
pub(crate) fn put_words(number: u8, output: &mut [u8]) -> usize
    ensures len { result ≡ length (words_for number) }
    ensures front { take (length (words_for number)) output.new ≡ take (length output.old) (words_for number) }
    ensures rest { drop (length (words_for number)) output.new ≡ drop (length (words_for number)) output.old }
{
    match STATUSES.get(number as usize) {
        None => 0,
        Some(status) => {
            let words = status.text().as_bytes();
            put_front(words, output);
            words.len()
        }
    }
}
