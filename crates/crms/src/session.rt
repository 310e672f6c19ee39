// What the operations are lent, what was answered last, and what the last replay counted.
use line_tool::explain::Last;
use std::alloc::Global;

#[derive(Drop)]
pub struct Session {
    pub alloc: Global,
    pub words: Vec<u32>,
    pub regular: Vec<u8>,
    pub alternate: Vec<u8>,
    pub file: Vec<u8>,
    // None: the manual's table of operators.
    pub table: Option<Vec<u8>>,
    pub last: Last,
    pub counts: [u32; 8],
}

impl Session {
    pub fn new(alloc: Global) -> Self {
        Session {
            alloc,
            words: Vec::new(alloc),
            regular: Vec::new(alloc),
            alternate: Vec::new(alloc),
            file: Vec::new(alloc),
            table: None,
            last: Last::Nothing,
            counts: [0; 8],
        }
    }
}
