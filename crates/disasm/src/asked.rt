// The table that operators are named by, as the arguments so far ask for it.
use line_tool::bytes::{count, put_bytes};
use line_tool::command::is;
use line_tool::fault::Fault;
use line_tool::streams::STDERR;
use operator::lent::{is_table, manual_table};

#[derive(Drop)]
pub struct Asked {
    // None where it was refused.
    pub table: Option<[u8; 16]>,
    // The argument before was --table.
    pub option: bool,
}

impl Asked {
    pub fn manual() -> Asked {
        Asked::under(manual_table())
    }

    fn under(table: [u8; 16]) -> Asked {
        Asked {
            table: Some(table),
            option: false,
        }
    }

    pub fn at_option(mut self) -> Asked {
        self.option = true;
        self
    }

    // After the last argument.
    pub fn end(self) {
        if self.option {
            complain(b"nothing stands after it\n");
        }
    }
}

// The table that the argument after --table writes.
pub fn lent(word: &[u8]) -> Asked {
    if is(word, b"manual") {
        return Asked::manual();
    }
    let Ok(n) = count(word, 2048, Fault::LongTable) else {
        return refuse(
            b"not manual, and not bytes of two digits 0 to 9 and a to f each, 2048 at most, - for none",
        );
    };
    if n != 16 {
        return refuse(b"refused 26, not sixteen bytes");
    }
    let mut places = [0u8; 16];
    put_bytes(word, &mut places);
    if is_table(&places) {
        return Asked::under(places);
    }
    if places.iter().any(|&place| 15 < place) {
        return refuse(b"refused 26, a byte above 15");
    }
    refuse(b"refused 26, a byte is repeated")
}

fn refuse(why: &[u8]) -> Asked {
    complain(why);
    io::write_all(STDERR, b"; the files after it are not listed\n");
    Asked {
        table: None,
        option: false,
    }
}

fn complain(words: &[u8]) {
    io::write_all(STDERR, b"disasm: --table: ");
    io::write_all(STDERR, words);
}
