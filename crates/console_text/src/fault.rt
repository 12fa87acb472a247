// Why a line has another answer than the one that it asks for.
use crate::shown::Refused;
use hexadecimal::DecodeError;
use refusal::Refusal;
use std::fmt;
use std::num::TryFromIntError;

#[derive(Clone, Copy, PartialEq, Eq)]
pub enum Fault {
    // The line is no call.
    NoCall,
    // The call is refused.
    Refused(Refusal),
}

impl From<Refusal> for Fault {
    fn from(why: Refusal) -> Fault {
        Fault::Refused(why)
    }
}

// A word is not what the call takes there.
impl From<DecodeError> for Fault {
    fn from(_e: DecodeError) -> Fault {
        Fault::NoCall
    }
}

// A number is too large for the call.
impl From<TryFromIntError> for Fault {
    fn from(_e: TryFromIntError) -> Fault {
        Fault::NoCall
    }
}

// A refused call: its number, and for a bad snapshot its line.
impl fmt::Display for Fault {
    fn fmt<W: fmt::Write>(&self, f: &mut fmt::Formatter<W>) -> fmt::Result {
        match *self {
            Fault::NoCall => write!(f, "error"),
            Fault::Refused(Refusal::BadSnapshot { line }) => {
                write!(f, "{} {line}", Refused(Refusal::BadSnapshot { line }))
            }
            Fault::Refused(why) => write!(f, "{}", Refused(why)),
        }
    }
}
