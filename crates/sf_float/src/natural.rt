//! A natural number in a room of fixed size: limbs of nine decimal digits, the lowest first.
ghost use Rattle.std.specs.Prelude.{◌≡◌, ℕ, ◌+◌, ◌-◌, ◌*◌, ◌/◌, ◌%◌, ◌^◌, ◌<◌, ◌≤◌, slice_index, IsTrue, IsFalse};
ghost use Rattle.std.specs.Prelude.{IfSome, IsSome};
ghost use Rattle.sf_float.specs.Limbs.{value_below, limb_weight, AreZeroFrom, AreNines};
ghost use Rattle.sf_float.specs.Quotient.{IsQuotient};

use std::marker::Model;

/// Numbers up to 10^585 fit; 10^580 is the greatest that a text of 255 digits after the point asks for.
const LIMBS: usize = 65;

const BASE: u64 = 1_000_000_000;

/// A natural number below 10^585.
#[derive(Drop)]
pub struct Natural {
    limbs: [u32; LIMBS],
    len: usize,
}

impl Model for Natural {
    ghost Value = { ℕ };

    ghost view = { λ n. value_below n.limbs n.len };

    ghost invariant = { λ n. (n.len ≤ 65) × AreZeroFrom n.limbs n.len × AreNines n.limbs };
}

/// 10^n.
pub fn power_of_ten(n: u32) -> u32
    requires { n ≤ 9 }
    ensures value { result ≡ 10 ^ n }
    ensures small { (0 < result) × (result ≤ 1000000000) }
{
    match n {
        0 => 1,
        1 => 10,
        2 => 100,
        3 => 1_000,
        4 => 10_000,
        5 => 100_000,
        6 => 1_000_000,
        7 => 10_000_000,
        8 => 100_000_000,
        _ => 1_000_000_000,
    }
}

/// 2^n.
fn power_of_two(n: u32) -> u32
    requires { n ≤ 29 }
    ensures value { result ≡ 2 ^ n }
    ensures small { (0 < result) × (result ≤ 1000000000) }
{
    1 << n
}

/// How many digits the number has.
fn digits_of(n: u32) -> usize
    requires { (0 < n) × (n < 1000000000) }
    ensures { (0 < result) × (result ≤ 9) × (n < 10 ^ result) × (10 ^ (result - 1) ≤ n) }
{
    if n < 10 {
        1
    } else if n < 100 {
        2
    } else if n < 1_000 {
        3
    } else if n < 10_000 {
        4
    } else if n < 100_000 {
        5
    } else if n < 1_000_000 {
        6
    } else if n < 10_000_000 {
        7
    } else if n < 100_000_000 {
        8
    } else {
        9
    }
}

// Multiplies and adds in the first `len` limbs, and returns the carry.
fn mul_add_limbs(limbs: &mut [u32; LIMBS], len: usize, by: u32, add: u32) -> u32
    requires room { len ≤ 65 }
    requires nines { AreNines limbs.old }
    requires small { (by ≤ 1000000000) × (add < 1000000000) }
    ensures value { value_below limbs.new len + result * limb_weight len
        ≡ value_below limbs.old len * by + add }
    ensures others { (i : ℕ) → len ≤ i → slice_index limbs.new i ≡ slice_index limbs.old i }
    ensures nines { AreNines limbs.new }
    ensures carry { result < 1000000000 }
{
    let mut carry = add as u64;
    for i in 0..len {
        let wide = limbs[i] as u64 * by as u64 + carry;
        limbs[i] = (wide % BASE) as u32;
        carry = wide / BASE;
    }
    carry as u32
}

// Divides the first `len` limbs, and returns the remainder.
fn div_limbs(limbs: &mut [u32; LIMBS], len: usize, by: u32) -> u32
    requires room { len ≤ 65 }
    requires nines { AreNines limbs.old }
    requires small { (0 < by) × (by ≤ 1000000000) }
    ensures value { value_below limbs.old len ≡ value_below limbs.new len * by + result }
    ensures others { (i : ℕ) → len ≤ i → slice_index limbs.new i ≡ slice_index limbs.old i }
    ensures nines { AreNines limbs.new }
    ensures rest { result < by }
{
    let mut rest: u64 = 0;
    let mut i = len;
    while i > 0 {
        i -= 1;
        let wide = rest * BASE + limbs[i] as u64;
        limbs[i] = (wide / by as u64) as u32;
        rest = wide % by as u64;
    }
    rest as u32
}

impl Natural {
    fn zero() -> Natural
        ensures { result ≡ 0 }
    {
        Natural {
            limbs: [0; LIMBS],
            len: 0,
        }
    }

    pub fn new(n: u64) -> Natural
        ensures { result ≡ n }
    {
        let mut big = Natural::zero();
        big.mul_add(1, (n / BASE / BASE) as u32);
        big.mul_add(1_000_000_000, (n / BASE % BASE) as u32);
        big.mul_add(1_000_000_000, (n % BASE) as u32);
        big
    }

    /// Multiplies by a number of at most nine digits, and adds another.
    pub fn mul_add(&mut self, by: u32, add: u32)
        requires small { (by ≤ 1000000000) × (add < 1000000000) }
        requires room { self.old * by + add < limb_weight 65 }
        ensures { self.new ≡ self.old * by + add }
    {
        let len = self.len;
        let carry = mul_add_limbs(&mut self.limbs, len, by, add);
        if carry > 0 {
            self.limbs[len] = carry;
            self.len = len + 1;
        }
    }

    /// Divides by a number of at most nine digits, and returns the remainder.
    pub fn div(&mut self, by: u32) -> u32
        requires { (0 < by) × (by ≤ 1000000000) }
        ensures value { self.old ≡ self.new * by + result }
        ensures rest { result < by }
        ensures room { self.old < limb_weight 65 }
    {
        let len = self.len;
        let rest = div_limbs(&mut self.limbs, len, by);
        if len > 0 && self.limbs[len - 1] == 0 {
            self.len = len - 1;
        }
        rest
    }

    pub fn times_ten_to(&mut self, n: u32)
        requires { self.old * 10 ^ n < limb_weight 65 }
        ensures { self.new ≡ self.old * 10 ^ n }
    {
        let mut left = n;
        while left > 9 {
            self.mul_add(1_000_000_000, 0);
            left -= 9;
        }
        self.mul_add(power_of_ten(left), 0);
    }

    pub fn times_two_to(&mut self, n: u32)
        requires { self.old * 2 ^ n < limb_weight 65 }
        ensures { self.new ≡ self.old * 2 ^ n }
    {
        let mut left = n;
        while left > 29 {
            self.mul_add(536_870_912, 0);
            left -= 29;
        }
        self.mul_add(power_of_two(left), 0);
    }

    // Divides, and returns whether something was cut off, or had been before.
    fn div_losing(&mut self, by: u32, lost: bool) -> bool
        requires { (0 < by) × (by ≤ 1000000000) }
        ensures { (a d : ℕ) → 0 < d → IsQuotient a d self.old lost → IsQuotient a (d * by) self.new result }
    {
        let rest = self.div(by);
        if rest != 0 {
            return true;
        }
        lost
    }

    /// Divides by 2^n, and returns whether something was cut off, or had been before.
    pub fn over_two_to(&mut self, n: u32, lost: bool) -> bool
        ensures { (a d : ℕ) → 0 < d → IsQuotient a d self.old lost → IsQuotient a (d * 2 ^ n) self.new result }
    {
        let mut cut = lost;
        let mut left = n;
        while left > 29 {
            cut = self.div_losing(536_870_912, cut);
            left -= 29;
        }
        self.div_losing(power_of_two(left), cut)
    }

    /// Divides by 10^n, and returns whether something was cut off, or had been before.
    pub fn over_ten_to(&mut self, n: u32, lost: bool) -> bool
        ensures { (a d : ℕ) → 0 < d → IsQuotient a d self.old lost → IsQuotient a (d * 10 ^ n) self.new result }
    {
        let mut cut = lost;
        let mut left = n;
        while left > 9 {
            cut = self.div_losing(1_000_000_000, cut);
            left -= 9;
        }
        self.div_losing(power_of_ten(left), cut)
    }

    pub fn is_odd(&self) -> bool
        ensures odd { IsTrue result → self.now % 2 ≡ 1 }
        ensures even { IsFalse result → self.now % 2 ≡ 0 }
    {
        self.digit(0) % 2 == 1
    }

    /// The number, where it is below 2^64.
    pub fn as_u64(&self) -> Option<u64>
        ensures value { IfSome result (λ n. n ≡ self.now) }
        ensures answers { self.now < 2 ^ 64 → IsSome result }
    {
        let mut number: u64 = 0;
        let mut i = self.len;
        while i > 0 {
            i -= 1;
            number = number.checked_mul(BASE)?.checked_add(self.limbs[i] as u64)?;
        }
        Some(number)
    }

    /// How many digits it has; 0 has none.
    pub fn count(&self) -> usize
        ensures below { self.now < 10 ^ result }
        ensures from { 0 < result → 10 ^ (result - 1) ≤ self.now }
        ensures most { result ≤ 585 }
    {
        let mut i = self.len;
        while i > 0 && self.limbs[i - 1] == 0 {
            i -= 1;
        }
        if i == 0 {
            return 0;
        }
        (i - 1) * 9 + digits_of(self.limbs[i - 1])
    }

    /// The digit after which n digits stand.
    pub fn digit(&self, n: usize) -> u8
        ensures { result ≡ self.now / 10 ^ n % 10 }
    {
        let at = n / 9;
        let limb = if at < LIMBS { self.limbs[at] } else { 0 };
        (limb / power_of_ten((n % 9) as u32) % 10) as u8
    }
}
