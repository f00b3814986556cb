// Writing what is read.
use message::reader::read;
use message::{Head, Message};
use std::{fmt, io};

// A head in print: its view, its sender and its number of blocks.
#[derive(Clone, Copy)]
struct Printed(Head);

impl fmt::Display for Printed {
    fn fmt<W: fmt::Write>(&self, f: &mut fmt::Formatter<W>) -> fmt::Result {
        let h = self.0;
        write!(f, "{} {} {}", h.view, h.sender, h.blocks)
    }
}

// What is read in a register of four benches; a refusal is its number.
pub(crate) fn print_read(rt: &impl Print, bytes: &[u8]) -> io::Result<()> {
    match read(4, bytes) {
        Ok(Message::Log(h)) => print!(rt; "log {}", Printed(h)),
        Ok(Message::Proposal(h, priority)) => print!(rt; "proposal {} {priority}", Printed(h)),
        Err(why) => print!(rt; "refused {}", u8::from(why)),
    }
}
