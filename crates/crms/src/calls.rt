// The operations, called with what a line says, and their answers. Each hands back what was answered.
use crate::answers;
use crate::arguments::{Arguments, Refusal};
use crate::session::Session;
use crate::sets::zero_words;
use effects::Ran;
use line_tool::explain::Last;
use line_tool::fault::Misread;
use operations::{Halt, Looked};
use operator::lent::manual_table;
use segment::word;
use trap::Trap;

impl Session {
    pub fn lay_out(&mut self, arguments: Arguments<'_>) -> Result<Last, Misread> {
        let [selector, function, globals, array_words] = arguments.only::<4>()?;
        let answer = engine::lay_out::lay_out(
            &mut self.words,
            &self.regular,
            &self.alternate,
            selector,
            function,
            globals,
            array_words,
        );
        Ok(answered(b"layout", answer))
    }

    pub fn run(&mut self, arguments: Arguments<'_>) -> Result<Last, Misread> {
        let [budget] = arguments.only::<1>()?;
        let answer = match &self.table {
            None => engine::run::run(&mut self.words, &self.regular, &self.alternate, budget),
            Some(table) => engine::run::run_with(
                &mut self.words,
                &self.regular,
                &self.alternate,
                table,
                budget,
            ),
        };
        Ok(ended(answer, word(&self.words, 3)))
    }

    // As many lengths as the rank, then the elements. There is room for as many as the line can have.
    pub fn load(&mut self, arguments: Arguments<'_>) -> Result<Last, Refusal> {
        let mut first = [0; 2];
        let rest = arguments.decimals(2, &mut first)?;
        let [global, rank] = first;
        let rank = rank as usize;
        let mut lengths = zero_words(self.alloc, rank.min(rest.most()))?;
        let rest = rest.lengths(rank, &mut lengths)?;
        let most = rest.most();
        let mut elements = zero_words(self.alloc, most)?;
        let listed = rest.words(most, &mut elements)?;
        elements.truncate(listed.count);
        let answer = engine::load::load(
            &mut self.words,
            &self.regular,
            &self.alternate,
            global,
            &lengths,
            &elements,
        );
        Ok(answered(b"load", answer))
    }

    pub fn look(&self, arguments: Arguments<'_>) -> Result<Last, Misread> {
        let [global] = arguments.only::<1>()?;
        match engine::look::look(&self.words, &self.regular, &self.alternate, global) {
            Err(refusal) => return Ok(refused(b"look", refusal)),
            Ok(Looked::Scalar(w)) => answers::scalar(w),
            Ok(Looked::Array(block)) => answers::array(
                engine::look::lengths(&self.words, block),
                engine::look::elements(&self.words, block),
            ),
        }
        Ok(Last::Status(0))
    }

    pub fn sheet(&self, arguments: Arguments<'_>) -> Result<Last, Misread> {
        arguments.end()?;
        match engine::sheet::sheet(&self.words, &self.regular, &self.alternate) {
            Err(refusal) => Ok(refused(b"sheet", refusal)),
            Ok(sums) => {
                answers::sheet(sums);
                Ok(Last::Status(0))
            }
        }
    }

    // The file of imports, replayed. What it counted is kept.
    pub fn replay(&mut self, arguments: Arguments<'_>) -> Result<Last, Misread> {
        arguments.end()?;
        let manual = manual_table();
        let table = match &self.table {
            None => manual.as_slice(),
            Some(table) => table.as_slice(),
        };
        self.counts = [0; 8];
        let answer = replay::replay_into(
            &mut self.words,
            &self.regular,
            &self.alternate,
            table,
            &self.file,
            &mut self.counts,
        );
        Ok(replayed(answer, word(&self.words, 3)))
    }
}

fn answered(name: &[u8], answer: Result<(), operations::Refusal>) -> Last {
    match answer {
        Err(refusal) => refused(name, refusal),
        Ok(()) => {
            answers::status(name, 0);
            Last::Status(0)
        }
    }
}

fn refused(name: &[u8], refusal: operations::Refusal) -> Last {
    let n = refusal.number();
    answers::status(name, n);
    Last::Status(n)
}

// A run's answer, with word 3 as the run left it.
fn ended(answer: Result<Ran, operations::Refusal>, trap: u32) -> Last {
    match answer {
        Err(refusal) => refused(b"run", refusal),
        Ok(Ran::Done(steps)) => {
            answers::ran(2, steps, trap);
            Last::Status(2)
        }
        Ok(Ran::Trapped(steps)) => {
            answers::ran(3, steps, trap);
            trap_of(trap)
        }
    }
}

// A replay's answer, with word 3 as the replay left it.
fn replayed(answer: Result<(), Halt>, trap: u32) -> Last {
    match answer {
        Ok(()) => {
            answers::status(b"replay", 0);
            Last::Status(0)
        }
        Err(Halt::Trapped(place)) => {
            answers::halted_by_trap(place, trap);
            trap_of(trap)
        }
        Err(halt) => {
            answers::halted(halt.number(), halt.place());
            Last::Status(halt.number())
        }
    }
}

// The trap that word 3 tells.
fn trap_of(word: u32) -> Last {
    Last::Trap(Trap {
        class: (word / 0x100 % 0x100) as u8,
        number: (word % 0x100) as u8,
    })
}
