//! The group that a directive is in: the groups of a format are counted from 1.
ghost use Rattle.std.specs.Prelude.{◌≡◌, ◌<◌, ◌≤◌, length};
ghost use Rattle.sf_format.specs.Proper.{is_opener};
ghost use Rattle.sf_messages.specs.shown.Shown.{begun_with, group_from, group_of, left_after};

use sf_format::Directive;

/// What stands before a directive.
#[derive(Clone, Copy)]
pub(crate) struct Groups {
    /// How many groups have begun.
    begun: u16,
    /// How many directives are left of the last one.
    left: u16,
}

/// Before the first directive.
pub(crate) const NO_GROUPS: Groups = Groups { begun: 0, left: 0 };

/// Whether the directive opens a group.
fn is_opener(directive: &Directive) -> bool
    ensures { result ≡ is_opener directive.now }
{
    match directive {
        Directive::Conv(conversion) => conversion.opens.is_some(),
        Directive::Opens(_) => true,
        _ => false,
    }
}

impl Groups {
    /// Passes the next directive: the group that it is in, if it is in one.
    pub(crate) fn pass(&mut self, directive: &Directive) -> Option<u16>
        requires { self.old.begun < 65535 }
        ensures group { result ≡ group_of directive.now self.old.begun self.old.left }
        ensures begun { self.new.begun ≡ begun_with directive.now self.old.begun }
        ensures left { self.new.left ≡ left_after directive.now self.old.left }
    {
        if is_opener(directive) {
            self.begun += 1;
            self.left = directive.more();
            return Some(self.begun);
        }
        if self.left == 0 {
            return None;
        }
        self.left -= 1;
        Some(self.begun)
    }
}

/// The group of the directive at the place, if it is in one.
pub(crate) fn group_at(directives: &[Directive], place: usize) -> Option<u16>
    requires { length directives.now ≤ 4096 }
    ensures { result ≡ group_from 0 0 directives.now place }
{
    let mut groups = NO_GROUPS;
    for (i, directive) in directives.iter().enumerate() {
        let group = groups.pass(directive);
        if i == place {
            return group;
        }
    }
    None
}
