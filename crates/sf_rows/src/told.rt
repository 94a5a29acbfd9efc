//! What a run comes to, in the few words of a row.
use sf_run::{Ending, Outcome, Status};

/// What stands behind the last byte that a run used.
#[derive(Clone, Copy, PartialEq, Eq)]
pub enum Met {
    /// The end of the input, where the run would have gone on.
    End,
    /// A read that fails, where the run would have gone on.
    Fault,
    /// A byte that the run didn't use, and by which alone it has ended.
    Byte,
    /// Whatever it is: the run has ended without it.
    Nothing,
}

impl Met {
    /// The ending that the report tells.
    pub fn ending(self) -> Option<Ending> {
        match self {
            Met::End => Some(Ending::End),
            Met::Fault => Some(Ending::Fault),
            Met::Byte | Met::Nothing => None,
        }
    }
}

/// What a run comes to.
#[derive(Clone, Copy)]
pub enum Told {
    /// The values assigned, the bytes used, and what it met.
    Done(u8, u32, Met),
    /// The same, with the conversions that completed before the bytes used.
    Counted(u8, u16, u32, Met),
    /// Why, at which directive, the values assigned, the bytes used, and what it met.
    Failed(Status, u16, u8, u32, Met),
    /// The same, with the conversions that completed before the bytes used.
    FailedAfter(Status, u16, u8, u16, u32, Met),
}

impl Told {
    /// What the report tells.
    pub fn outcome(self) -> Outcome {
        let (status, at, assigned, converted, used) = match self {
            Told::Done(assigned, used, _) => (Status::Done, 0, assigned, assigned as u16, used),
            Told::Counted(assigned, converted, used, _) => {
                (Status::Done, 0, assigned, converted, used)
            }
            Told::Failed(status, at, assigned, used, _) => {
                (status, at, assigned, assigned as u16, used)
            }
            Told::FailedAfter(status, at, assigned, converted, used, _) => {
                (status, at, assigned, converted, used)
            }
        };
        Outcome {
            status,
            at,
            assigned,
            converted,
            used,
            met: self.met().ending(),
        }
    }

    /// What the run met.
    pub fn met(self) -> Met {
        match self {
            Told::Done(_, _, met)
            | Told::Counted(_, _, _, met)
            | Told::Failed(_, _, _, _, met)
            | Told::FailedAfter(_, _, _, _, _, met) => met,
        }
    }
}
