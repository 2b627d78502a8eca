// The synchroniser: its state, the observations and the events. When an event may happen and what then holds, what an
// explanation is, and the ordered walk are definitions, in specs/; what is true of them stands in proofs/Theorems.antt.
#![tactic(auto)]

ghost use Rattle.std.specs.Prelude.{◌≡◌, Some};
ghost use Rattle.model.specs.Kinds.{kind_of, code_of, unknown_text};

use std::error::Error;
use std::fmt;

// What the service and its tablets hold. Wide fields first: 24 bytes. The values are an array and the marks are bits, as the
// definitions in specs/Model.antt take them, with no heap.
#[derive(Clone, Copy, Debug, PartialEq, Eq)]
pub struct State {
    pub conflicts: u64,
    pub local: [u8; 8],
    pub server: u8,
    pub fresh: u8,
    pub dirty: u8,
}

// What a tablet, or the whole home, reports.
#[derive(Clone, Copy, Debug, PartialEq, Eq)]
pub enum Observation {
    Read { tablet: u8, seen: u8 },
    Write { tablet: u8, new: u8, seen: u8 },
    Stabilize { seen: u8, conflicts: u64 },
    Failed,
}

// What happens: something observed, or a hidden upload or download at a tablet.
#[derive(Clone, Copy, Debug, PartialEq, Eq)]
pub enum Event {
    Observed(Observation),
    Up(u8),
    Down(u8),
}

// What kind of event it is: a record's first byte, and that of an event handed out.
#[derive(Clone, Copy, Debug, PartialEq, Eq)]
pub enum Kind {
    Read,
    Write,
    Stabilize,
    Failed,
    Up,
    Down,
}

// A byte that stands for no kind.
#[derive(Clone, Copy, Debug, PartialEq, Eq)]
pub struct UnknownKind(pub u8);

impl fmt::Display for UnknownKind {
    ghost output = { λ e. Some (unknown_text e) };

    fn fmt<W: fmt::Write>(&self, f: &mut fmt::Formatter<W>) -> fmt::Result {
        write!(f, "no kind of event has byte {}", self.0)
    }
}

impl Error for UnknownKind {}

impl TryFrom<u8> for Kind {
    type Error = UnknownKind;

    ghost try_from_gives = { λ byte r. r ≡ kind_of byte };

    fn try_from(byte: u8) -> Result<Kind, UnknownKind> {
        match byte {
            1 => Ok(Kind::Read),
            2 => Ok(Kind::Write),
            3 => Ok(Kind::Stabilize),
            4 => Ok(Kind::Failed),
            5 => Ok(Kind::Up),
            6 => Ok(Kind::Down),
            _ => Err(UnknownKind(byte)),
        }
    }
}

impl From<Kind> for u8 {
    ghost from_gives = { λ k r. r ≡ code_of k };

    fn from(kind: Kind) -> u8 {
        match kind {
            Kind::Read => 1,
            Kind::Write => 2,
            Kind::Stabilize => 3,
            Kind::Failed => 4,
            Kind::Up => 5,
            Kind::Down => 6,
        }
    }
}
