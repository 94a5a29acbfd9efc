//! Names of columns.
ghost use Rattle.std.specs.Prelude.{◌≡◌, ◌==◌, ◌+◌, ◌<◌, ◌≤◌, ℕ, Bool, List, false, length, map, true, IfErr, IfOk};
ghost use Rattle.std.specs.Prelude.{MatchOption};
ghost use Rattle.std.specs.List.{AllByRecursion, Contains, join_with_byte, slice_split};
ghost use Rattle.sf_format.specs.declared.directive.Directive.{Directive};
ghost use Rattle.sf_forms.specs.Columns.{name_at, texts};
ghost use Rattle.sf_forms.specs.Heads.{head};
ghost use Rattle.sf_forms.specs.makers.Names.{AreGoodBelow, AreNames, IsCounted, IsGood, IsNamesFault};
ghost use Rattle.sf_forms.specs.makers.Names.{names_before};

use crate::TAG_NAME;
use crate::heads::heads_of;
use sf_format::ScanFormat;
use std::alloc::{AllocError, Global};
use std::marker::Model;

/// What is wrong with names of columns. Names are counted from 1.
#[derive(Clone, Copy, Debug, PartialEq, Eq)]
pub enum NamesFault {
    /// A format gives `expected` values, and there are `got` names.
    Count { expected: u8, got: usize },
    /// This name is empty.
    Empty { number: usize },
    /// This name stands before as well, or it is that of the column for the format's number.
    Twice { number: usize },
}

/// Names of columns, in their order.
#[derive(Drop)]
pub struct Names<'n> {
    names: Vec<&'n str>,
    /// What stands before the value of each in an object of JSON.
    heads: Vec<Vec<u8>>,
}

impl<'n> Model for Names<'n> {
    ghost use Rattle.std.specs.Prelude.{◌≡◌, List, ℕ, map};
    ghost use Rattle.sf_forms.specs.Columns.{texts};
    ghost use Rattle.sf_forms.specs.Heads.{head};

    ghost Value = { List (List ℕ) };

    ghost view = { λ n. texts n.names.items };

    ghost invariant = { λ n. map (λ text. text.items) n.heads.items ≡ map head (texts n.names.items) };
}

/// The parts of a text between its commas.
fn parts(alloc: Global, text: &str) -> Result<Vec<&str>, AllocError>
    ensures { IfOk result (λ all. map (λ part. part.now) all.items ≡ slice_split (λ b. b == 44) text.now) }
{
    text.split(',').collect(alloc)
}

/// Whether a text is one of these.
fn stands_in(names: &[&str], text: &str) -> bool
    ensures found { result ≡ true → Contains (texts names.now) text.now }
    ensures missing { result ≡ false → Contains (texts names.now) text.now → ⊥ }
{
    for name in names {
        if *name == text {
            return true;
        }
    }
    false
}

/// Whether the name after so many others stands before as well.
fn stands_before(names: &[&str], before: usize, tagged: bool) -> bool
    requires { before < length names.now }
    ensures found { result ≡ true → Contains (names_before tagged (texts names.now) (before + 1))
        (name_at (texts names.now) (before + 1)) }
    ensures missing { result ≡ false → Contains (names_before tagged (texts names.now) (before + 1))
        (name_at (texts names.now) (before + 1)) → ⊥ }
{
    let name = names[before];
    if tagged && name == TAG_NAME {
        return true;
    }
    stands_in(&names[..before], name)
}

/// What is wrong with the name after so many others.
fn fault_after(names: &[&str], before: usize, tagged: bool) -> Option<NamesFault>
    requires within { before < length names.now }
    requires good { AreGoodBelow tagged (texts names.now) (before + 1) }
    ensures { MatchOption result (IsGood tagged (texts names.now) (before + 1)) (λ why.
        (formats : List (List Directive)) → AllByRecursion (IsCounted (texts names.now)) formats
        → IsNamesFault tagged (texts names.now) formats why) }
{
    let number = before + 1;
    if names[before].is_empty() {
        return Some(NamesFault::Empty { number });
    }
    if stands_before(names, before, tagged) {
        return Some(NamesFault::Twice { number });
    }
    None
}

/// Whether each format gives as many values as there are names. Else the first that doesn't.
fn check_counts(names: &[&str], formats: &[ScanFormat]) -> Result<(), NamesFault>
    ensures counted { IfOk result (λ _. AllByRecursion (IsCounted (texts names.now)) formats.now) }
    ensures fault { IfErr result (λ why. (tagged : Bool)
        → IsNamesFault tagged (texts names.now) formats.now why) }
{
    let got = names.len();
    for format in formats {
        let expected = format.destinations();
        if expected as usize != got {
            return Err(NamesFault::Count { expected, got });
        }
    }
    Ok(())
}

/// Whether each name is good. Else the first that isn't.
fn check_each(names: &[&str], tagged: bool) -> Result<(), NamesFault>
    ensures good { IfOk result (λ _. (number : ℕ) → 1 ≤ number → number ≤ length names.now
        → IsGood tagged (texts names.now) number) }
    ensures fault { IfErr result (λ why. (formats : List (List Directive))
        → AllByRecursion (IsCounted (texts names.now)) formats
        → IsNamesFault tagged (texts names.now) formats why) }
{
    for before in 0..names.len() {
        if let Some(fault) = fault_after(names, before, tagged) {
            return Err(fault);
        }
    }
    Ok(())
}

impl<'n> Names<'n> {
    /// The names in a text, in which a comma stands between each two. They have no escapes. Err where memory was
    /// refused.
    pub fn split(alloc: Global, text: &'n str) -> Result<Names<'n>, AllocError>
        ensures split { IfOk result (λ names. names ≡ slice_split (λ b. b == 44) text.now) }
        ensures joined { IfOk result (λ names. join_with_byte 44 names ≡ text.now) }
    {
        let names = parts(alloc, text)?;
        let heads = heads_of(alloc, &names)?;
        Ok(Names { names, heads })
    }

    /// How many there are.
    pub fn len(&self) -> usize
        ensures { result ≡ length self.now }
    {
        self.names.len()
    }

    /// All of them.
    pub fn as_slice(&self) -> &[&'n str]
        ensures { texts result.now ≡ self.now }
    {
        &self.names
    }

    /// The name with this number, counted from 1, or an empty one.
    pub fn name(&self, number: usize) -> &'n str
        requires { 1 ≤ number }
        ensures { result.now ≡ name_at self.now number }
    {
        match self.names.get(number - 1) {
            Some(name) => name,
            None => "",
        }
    }

    /// What stands before the value with this number, counted from 1, in an object of JSON: its name, or an empty one,
    /// and a colon.
    #[inline(always)]
    pub(crate) fn head(&self, number: usize) -> &[u8]
        requires { 1 ≤ number }
        ensures { result.now ≡ head (name_at self.now number) }
    {
        match self.heads.get(number - 1) {
            Some(text) => text,
            None => b"\"\":",
        }
    }

    /// Whether these are names of the values that each of the formats gives: there are as many, none is empty, and none
    /// stands twice. Where a first column has the number of the format, `format` is its name, so that no other may have
    /// it. Else the first format that gives another number of values; where there is none, the first name, from the
    /// left, that is empty or stands before as well. It takes no memory.
    pub fn check(&self, formats: &[ScanFormat], tagged: bool) -> Result<(), NamesFault>
        ensures good { IfOk result (λ _. AreNames tagged self.now formats.now) }
        ensures fault { IfErr result (IsNamesFault tagged self.now formats.now) }
    {
        match check_counts(&self.names, formats) {
            Ok(()) => check_each(&self.names, tagged),
            Err(fault) => Err(fault),
        }
    }
}
