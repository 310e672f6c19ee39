// Runs the scalar operators on the cases of standard input, a line each, and writes every line with its answer. The file
// stdout has the answers that exact rational arithmetic gives (make_cases.py).
#![tactic(auto)]

ghost use Rattle.std.specs.Prelude.{◌≡◌, length};

use case_lines::number;
use line_tool::pen::Pen;
use line_tool::streams::{STDIN, STDOUT};
use operator::Operator;
use trap::Trap;

// A line is the suboperation number and both operands, in 20 characters, and its end.
fn main() {
    let mut cases = io::large_buffer();
    let n = io::read_full(STDIN, &mut cases);
    let mut pen = Pen::new(STDOUT);
    for line in cases[..n].chunks_exact(21) {
        run(&mut pen, line);
    }
}

fn run(pen: &mut Pen, line: &[u8])
    requires { length line.now ≡ 21 }
{
    pen.text(&line[0..20]);
    let answer = answer(
        number(&line[0..2]),
        number(&line[3..11]),
        number(&line[12..20]),
    );
    write(pen, answer);
}

fn answer(suboperation: u32, a: u32, b: u32) -> Result<u32, Trap> {
    match operator::operator_of((suboperation % 0x100) as u8) {
        Some(operator) => apply(operator, a, b),
        None => Err(Trap::UNDEFINED_GENSCALAR),
    }
}

fn apply(operator: Operator, a: u32, b: u32) -> Result<u32, Trap> {
    match operator {
        Operator::Monadic(o) => scalar::monadic(o, a),
        Operator::Dyadic(o) => scalar::dyadic(o, a, b),
    }
}

fn write(pen: &mut Pen, answer: Result<u32, Trap>) {
    match answer {
        Ok(w) => {
            pen.text(b" word ");
            pen.hex(w);
        }
        Err(trap) => {
            pen.text(b" trap ");
            pen.decimal(trap.class as u32);
            pen.text(b",");
            pen.decimal(trap.number as u32);
        }
    }
    pen.end_line();
}
