//! Rules in order.
ghost use Rattle.std.specs.Prelude.{◌≡◌};
ghost use Rattle.sf_base.specs.Rules.{first_reason};

/// A rule that something has to keep: whether it is broken, and then why the thing is refused. The reason may hold the
/// place too.
#[derive(Clone, Copy, Debug, PartialEq, Eq)]
pub struct Rule<W> {
    pub why: W,
    pub applies: bool,
}

/// Why the first rule that applies refuses; None where none does. The last rule is looked at first, and each one is
/// asked: a table that is made for the call then needs no place in memory.
pub fn first_fault<W: Copy>(rules: &[Rule<W>]) -> Option<W>
    ensures { result ≡ first_reason rules.now }
{
    let mut found = None;
    let mut left = rules.len();
    while left > 0 {
        left -= 1;
        if rules[left].applies {
            found = Some(rules[left].why);
        }
    }
    found
}
