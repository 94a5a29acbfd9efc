//! The two decimal digits of a number below 100.
ghost use Rattle.std.specs.Prelude.{◌≡◌, ◌+◌, ◌/◌, ◌%◌, ◌<◌};

/// The two digits of each number, one number after another.
static PAIRS: [u8; 200] = *b"\
    0001020304050607080910111213141516171819202122232425262728293031323334353637383940414243444546474849\
    5051525354555657585960616263646566676869707172737475767778798081828384858687888990919293949596979899";

/// The digits of a number below 100, as bytes: its tens, then its ones.
#[inline(always)]
pub fn pair_of(n: u64) -> (u8, u8)
    requires { n < 100 }
    ensures tens { result.0 ≡ 48 + n / 10 }
    ensures ones { result.1 ≡ 48 + n % 10 }
{
    let from = n as usize * 2;
    (PAIRS[from], PAIRS[from + 1])
}
