// Answer lines.
use book::refusal::EnterRefusal;
use policy_reader::fault::PolicyFault;
use requests::request::Tally;
use roll::roll::RollFault;
use std::alloc::AllocError;
use std::io::Write;
use std::{fmt, io};

// What a line is answered where it is not refused.
#[derive(Clone, Copy)]
pub enum Answer<'a> {
    // a word of the console's own, or the word of a name
    Word(&'a [u8]),
    Tally(Tally),
}

// Why a line is refused.
#[derive(Clone, Copy)]
pub enum Refusal<'a> {
    UnknownCommand(&'a [u8]),
    UnknownWord(&'a [u8]),
    NoBook,
    Roll(RollFault),
    Policy(PolicyFault),
    Book(EnterRefusal),
    OutOfMemory(AllocError),
}

// Answers and refusals write themselves and are no `Display`, since they echo bytes that may be no text.
impl Answer<'_> {
    // Adds the answer to the output.
    pub fn write_to(self, out: &mut impl Write) -> io::Result<()> {
        match self {
            Answer::Word(word) => out.write_all(word),
            Answer::Tally(tally) => write!(out, "{tally}"),
        }
    }
}

impl Refusal<'_> {
    // Adds the refusal to the output; out of memory ends the session instead.
    pub fn write_to(self, out: &mut impl Write) -> io::Result<()> {
        match self {
            Refusal::UnknownCommand(line) => {
                out.write_all(b"unknown command: ")?;
                out.write_all(line)
            }
            Refusal::UnknownWord(word) => {
                out.write_all(b"unknown word: ")?;
                out.write_all(word)
            }
            Refusal::NoBook => out.write_all(b"no book"),
            Refusal::Roll(fault) => {
                write!(
                    out,
                    "refused={} text={}",
                    fault.number(),
                    fault.list.number()
                )?;
                match fault.at() {
                    Some(at) => write!(out, " at={at}"),
                    None => Ok(()),
                }
            }
            Refusal::Policy(fault) => write!(out, "refused={} at={}", fault.number(), fault.at()),
            Refusal::Book(refusal) => write!(out, "refused={}", refusal.number()),
            Refusal::OutOfMemory(error) => Err(error.into()),
        }
    }
}

impl From<RollFault> for Refusal<'_> {
    fn from(fault: RollFault) -> Self {
        Refusal::Roll(fault)
    }
}

impl From<PolicyFault> for Refusal<'_> {
    fn from(fault: PolicyFault) -> Self {
        Refusal::Policy(fault)
    }
}

impl From<EnterRefusal> for Refusal<'_> {
    fn from(refusal: EnterRefusal) -> Self {
        Refusal::Book(refusal)
    }
}

impl From<AllocError> for Refusal<'_> {
    fn from(error: AllocError) -> Self {
        Refusal::OutOfMemory(error)
    }
}
