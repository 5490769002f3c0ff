// The refusals of files, lists and calls, each under the number by which reports and entries name it. Rests on nothing.
#![tactic(auto)]

ghost use Rattle.std.specs.Prelude.{◌≡◌};
ghost use Rattle.refusal.specs.Number.{number_of, refused_at};

#[derive(Clone, Copy, Debug, PartialEq, Eq)]
pub enum Refusal {
    // Of files.
    FileTooLong = 1,
    BadlyWritten = 2,
    OutOfRange = 3,
    MarkedTwice = 4,
    TooManyMarks = 5,
    DraftAboveCap = 6,
    TooManyCalls = 7,
    MemoryTooShort = 8,
    LowAboveHigh = 21,
    DraftsAboveLimit = 24,
    // Of calls.
    Unknown = 9,
    OffTheBoard = 10,
    SameVertex = 11,
    OwnBlock = 12,
    AcrossBlocks = 13,
    AboveCap = 14,
    NothingToUndo = 15,
    ContractionStands = 16,
    Fixed = 20,
    NetNamedTwice = 22,
    CatalogueFull = 23,
    AboveHallLimit = 25,
}

// The refusal of a file, and the number of the line where it stands: 0 where it is of the whole file, as the report has it.
#[derive(Clone, Copy, Debug, PartialEq, Eq)]
pub struct Refused {
    pub refusal: Refusal,
    pub line: usize,
}

impl Refusal {
    // The number of the refusal.
    pub fn number(self) -> u32
        ensures { result ≡ number_of self }
    {
        self as u32
    }

    // The refusal of a line.
    pub fn at(self, line: usize) -> Refused
        ensures { result ≡ refused_at self line }
    {
        Refused {
            refusal: self,
            line,
        }
    }
}
