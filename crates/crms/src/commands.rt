// What each command does: its line is read whole before anything is changed.
use crate::answers;
use crate::arguments::{Arguments, Refusal, wrong};
use crate::session::Session;
use line_tool::command::{Command, command_of};
use line_tool::fault::{Fault, Misread};
use line_tool::hash::hash_of;
use line_tool::tokens::{text, token_at};
use std::alloc::AllocError;

impl Session {
    // What is wrong with the line is answered.
    pub fn obey(&mut self, line: &[u8]) -> Result<(), AllocError> {
        match self.command(line) {
            Ok(()) => Ok(()),
            Err(Refusal::Misread(wrong)) => {
                answers::error(line, wrong);
                Ok(())
            }
            Err(Refusal::NoMemory(why)) => Err(why),
        }
    }

    fn command(&mut self, line: &[u8]) -> Result<(), Refusal> {
        let name = token_at(line, 0);
        let Some(command) = command_of(text(line, name)) else {
            return Err(wrong(Fault::NoCommand, name).into());
        };
        let arguments = Arguments { line, at: name.end };
        match command {
            Command::Seg => self.set_segment(arguments)?,
            Command::Word => self.set_words(1, arguments)?,
            Command::Words => self.set_words(line.len(), arguments)?,
            Command::Reg => self.set_regular(arguments)?,
            Command::Alt => self.set_alternate(arguments)?,
            Command::File => self.set_file(arguments)?,
            Command::Table => self.set_table(arguments)?,
            Command::Layout => self.last = self.lay_out(arguments)?,
            Command::Run => self.last = self.run(arguments)?,
            Command::Load => self.last = self.load(arguments)?,
            Command::Look => self.last = self.look(arguments)?,
            Command::Sheet => self.last = self.sheet(arguments)?,
            Command::Replay => self.last = self.replay(arguments)?,
            Command::Dump | Command::Hash | Command::Tally | Command::Explain | Command::Help => {
                self.tell(command, arguments)?
            }
        }
        Ok(())
    }

    // The commands that only answer.
    fn tell(&self, command: Command, arguments: Arguments<'_>) -> Result<(), Misread> {
        arguments.end()?;
        match command {
            Command::Dump => answers::dump(&self.words),
            Command::Hash => answers::hash(hash_of(&self.words)),
            Command::Tally => answers::tally(&self.counts),
            Command::Explain => answers::explain(self.last),
            _ => answers::help(),
        }
        Ok(())
    }
}
