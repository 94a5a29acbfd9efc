//! Sets of bytes.
ghost use Rattle.std.specs.Prelude.{◌≡◌, ◌↔◌, ◌||◌, ◌&&◌, ◌==◌, ◌<◌, ◌≤◌, ◌^◌, ◌-◌, nat_le, not, ℕ, List, Bool, true};
ghost use Rattle.std.specs.Prelude.{false, IsTrue, length, IfSome};
ghost use Rattle.std.specs.List.{prefix_len};
ghost use Rattle.sf_base.specs.Bytes.{IsLongestFront};
ghost use Rattle.sf_base.specs.Sets.{has_byte, word_has, marks_of, count_below, lone_lack, LacksOnly};

use crate::runs::run_before;
use std::marker::Model;

/// A set of bytes, as the scanlist of a format has one (C11 7.21.6.2p12).
#[derive(Debug, Drop)]
pub struct ByteSet {
    // byte b is bit b % 64 of word b / 64
    words: [u64; 4],
    // the byte that alone is no member, where the set is known to lack just one
    lacks: Option<u8>,
}

impl Model for ByteSet {
    ghost Value = { List Bool };

    ghost view = { λ s. marks_of s.words };

    ghost invariant = { λ s. (length s.words ≡ 4) × LacksOnly s.lacks (word_has s.words) };
}

impl ByteSet {
    /// The set with no member.
    pub fn empty() -> ByteSet
        ensures members { (k : ℕ) → k < 256 → has_byte result k ≡ false }
        ensures sized { length result ≡ 256 }
    {
        ByteSet {
            words: [0; 4],
            lacks: None,
        }
    }

    /// Makes the byte a member, if it is none yet.
    pub fn insert(&mut self, b: u8)
        ensures members { (k : ℕ) → k < 256 → has_byte self.new k ≡ (k == b || has_byte self.old k) }
        ensures sized { length self.new ≡ 256 }
    {
        let i = (b / 64) as usize;
        self.words[i] = self.words[i] | (1u64 << (b % 64));
        self.lacks = None;
    }

    /// Makes each byte from `lo` to `hi` a member, both among them.
    pub fn insert_range(&mut self, lo: u8, hi: u8)
        requires { lo ≤ hi }
        ensures members { (k : ℕ) → k < 256 → has_byte self.new k
            ≡ ((nat_le lo k && nat_le k hi) || has_byte self.old k) }
        ensures sized { length self.new ≡ 256 }
    {
        let mut words = self.words;
        for i in 0..4usize {
            // of the word, the bits of bytes below `lo`, and those of bytes up to `hi`
            let below = (1u128 << (lo as usize).saturating_sub(64 * i).min(64)) - 1;
            let upto = (1u128 << (hi as usize + 1).saturating_sub(64 * i).min(64)) - 1;
            words[i] = words[i] | (upto as u64 & !(below as u64));
        }
        *self = ByteSet { words, lacks: None };
    }

    /// The member, where there is just one.
    fn only_member(&self) -> Option<u8>
        ensures { IfSome result (λ b. (k : ℕ) → k < 256 → has_byte self.now k ≡ (k == b)) }
    {
        let mut found = None;
        for b in 0..256u16 {
            if self.contains(b as u8) {
                if found.is_some() {
                    return None;
                }
                found = Some(b as u8);
            }
        }
        found
    }

    /// The byte that alone is no member. None where each byte is one, or several are none.
    pub fn lone_lack(&self) -> Option<u8>
        ensures { result ≡ lone_lack self.now }
    {
        let mut found = None;
        for b in 0..256u16 {
            if !self.contains(b as u8) {
                if found.is_some() {
                    return None;
                }
                found = Some(b as u8);
            }
        }
        found
    }

    /// Makes each byte that is no member one, and takes the others away.
    pub fn complement(&mut self)
        ensures members { (k : ℕ) → k < 256 → has_byte self.new k ≡ not (has_byte self.old k) }
        ensures sized { length self.new ≡ 256 }
    {
        let lacks = self.only_member();
        for i in 0..4usize {
            let word = self.words[i];
            self.words[i] = !word;
        }
        self.lacks = lacks;
    }

    /// Whether the byte is a member.
    pub fn contains(&self, b: u8) -> bool
        ensures { result ≡ has_byte self.now b }
    {
        let word = self.words[(b / 64) as usize];
        (word >> (b % 64)) & 1 == 1
    }

    /// How many members the bytes begin with: the length of their longest front of members.
    #[inline(always)]
    pub fn run(&self, bytes: &[u8]) -> usize
        ensures longest { IsLongestFront (has_byte self.now) bytes.now result }
        ensures count { result ≡ prefix_len (has_byte self.now) bytes.now }
    {
        if let Some(end) = self.lacks {
            return run_before(end, bytes);
        }
        for i in 0..bytes.len() {
            if !self.contains(bytes[i]) {
                return i;
            }
        }
        bytes.len()
    }

    /// Whether some byte is a member of both sets.
    pub fn meets(&self, other: &ByteSet) -> bool
        ensures { IsTrue result ↔ ((k : ℕ) × (k < 256) × (has_byte self.now k ≡ true) × (has_byte other.now k ≡ true)) }
    {
        for i in 0..4usize {
            let (mine, others) = (self.words[i], other.words[i]);
            if mine & others != 0 {
                return true;
            }
        }
        false
    }

    /// Whether each member is a member of the other set too.
    pub fn subset(&self, other: &ByteSet) -> bool
        ensures { IsTrue result ↔ ((k : ℕ) → k < 256 → has_byte self.now k ≡ true → has_byte other.now k ≡ true) }
    {
        for i in 0..4usize {
            let (mine, others) = (self.words[i], other.words[i]);
            if mine & !others != 0 {
                return false;
            }
        }
        true
    }

    /// The number of members.
    pub fn count(&self) -> u16
        ensures members { result ≡ count_below (has_byte self.now) 256 }
        ensures at_most_all { result ≤ 256 }
        ensures sized { length self.now ≡ 256 }
    {
        let _words = &self.words;
        let mut count = 0;
        for b in 0..256u16 {
            if self.contains(b as u8) {
                count += 1;
            }
        }
        count
    }
}
