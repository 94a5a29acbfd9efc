//! The groups of a scan format, as far as it was read.
ghost use Rattle.std.specs.Prelude.{◌≡◌, ◌∷◌, []};
ghost use Rattle.sf_format.specs.declared.fault.FormatWhy.TheVariants.{BadGroup};
ghost use Rattle.sf_format.specs.Groups.{is_open, may_stand, next_stage, place_told, role_by};
ghost use Rattle.sf_format.specs.Rules.{first_of};
ghost use Rattle.sf_format.specs.Passing.{IsJoined, fault_in, is_marking};

use crate::fault::{FormatFault, FormatWhy};

/// What a part is to groups.
#[derive(Clone, Copy)]
pub enum Role {
    /// It opens a group.
    Start,
    /// It closes one.
    End,
    /// A directive that may be the first of a group.
    Leads,
    /// Another directive.
    Follows,
}

/// Where a part stands.
#[derive(Clone, Copy)]
pub enum Stage {
    /// Outside a group.
    Outside,
    /// In a group, as the first there.
    First,
    /// In a group, after another.
    Inside,
}

/// Where the next part stands, and the place of the last mark that opens a group, or 0.
#[derive(Clone, Copy)]
pub struct Group {
    pub stage: Stage,
    pub start: u16,
}

/// Before the first part.
pub const NO_GROUP: Group = Group {
    stage: Stage::Outside,
    start: 0,
};

impl Role {
    /// Whether it is that of a mark, which is no directive.
    pub fn is_mark(self) -> bool
        ensures { result ≡ is_marking self }
    {
        matches!(self, Role::Start | Role::End)
    }

    /// The role of a conversion, where it is known whether it may be the first of a group.
    pub fn of_conversion(follows: bool) -> Role
        ensures { result ≡ role_by follows }
    {
        if follows { Role::Follows } else { Role::Leads }
    }
}

impl Stage {
    /// Whether a part with the role may stand there.
    fn may_stand(self, role: Role) -> bool
        ensures { result ≡ may_stand self role }
    {
        match self {
            Stage::Outside => !matches!(role, Role::End),
            Stage::First => matches!(role, Role::Leads),
            Stage::Inside => !matches!(role, Role::Start),
        }
    }

    /// Where what follows the part stands.
    fn next(self, role: Role) -> Stage
        ensures { result ≡ next_stage self role }
    {
        match (self, role) {
            (_, Role::Start) => Stage::First,
            (_, Role::End) => Stage::Outside,
            (Stage::First, _) => Stage::Inside,
            _ => self,
        }
    }
}

impl Group {
    /// The place that is reported where the part at the place may not stand there.
    fn place_told(self, role: Role, at: u16) -> u16
        ensures { result ≡ place_told self.stage role self.start at }
    {
        match (self.stage, role) {
            (Stage::First, Role::Start) => at,
            (Stage::First, _) => self.start,
            _ => at,
        }
    }

    /// What stands before the part that follows the one at the place; or the fault, if that may not stand there.
    pub fn joined(self, role: Role, at: u16) -> Result<Group, FormatFault>
        ensures { IsJoined self role at result }
    {
        // first what stands in no group, so that a format without one costs a single look
        if matches!(self.stage, Stage::Outside) && !role.is_mark() {
            return Ok(self);
        }
        if !self.stage.may_stand(role) {
            return Err(FormatFault {
                at: self.place_told(role, at),
                why: FormatWhy::BadGroup,
            });
        }
        let start = if matches!(role, Role::Start) {
            at
        } else {
            self.start
        };
        Ok(Group {
            stage: self.stage.next(role),
            start,
        })
    }

    /// The fault of a group that is open at the end of the text, if one is.
    pub fn open_fault(self) -> Option<FormatFault>
        ensures { fault_in result ≡ first_of (record { why = BadGroup; applies = is_open self.stage; at = self.start }
            ∷ []) }
    {
        match self.stage {
            Stage::Outside => None,
            _ => Some(FormatFault {
                at: self.start,
                why: FormatWhy::BadGroup,
            }),
        }
    }
}
