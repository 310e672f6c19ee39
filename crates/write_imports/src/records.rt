// The records that lines say.
ghost use Rattle.std.specs.Prelude.{◌≤◌, length, take};
ghost use Rattle.imports.specs.Records.{number_limit};
ghost use Rattle.imports.specs.Encoding.{AtMost};
ghost use Rattle.write_imports.specs.Lines as meaning;

use crate::encode::{encode_load, encode_run};
use crate::numbers::{Limit, number_in, numbers_from};
use crate::wrong::{Refused, Wrong};
use elements::shapes::product;
use line_tool::command::is;
use line_tool::fault::Fault;
use line_tool::tokens::{Token, text, token_at};

// The bytes of the record that a line says go to the front of `out`: how many they are.
pub fn write_line(
    line: &[u8],
    lengths: &mut [u32],
    ravel: &mut [u32],
    out: &mut [u8],
) -> Result<usize, Refused>
    requires { meaning.Room lengths.old ravel.old out.old }
    ensures { meaning.Writes result out.new }
{
    let word = token_at(line, 0);
    if is(text(line, word), b"load") {
        return write_load(line, word.end, lengths, ravel, out);
    }
    if is(text(line, word), b"run") {
        return write_run(line, word.end, out);
    }
    Err(refused(Wrong::NoRecord, word))
}

fn write_run(line: &[u8], at: usize, out: &mut [u8]) -> Result<usize, Refused>
    requires { meaning.room_out ≤ length out.old }
    ensures { meaning.Writes result out.new }
{
    let token = token_at(line, at);
    match number_in(Limit::Number, text(line, token)) {
        Err(wrong) => Err(refused(wrong, shown(token, at))),
        Ok(budget) => {
            let more = token_at(line, token.end);
            if !more.is_empty() {
                return Err(refused(Wrong::Text(Fault::Extra), more));
            }
            Ok(encode_run(budget, out))
        }
    }
}

// A load: the address and the lengths stand before the bar, the elements after it.
fn write_load(
    line: &[u8],
    at: usize,
    lengths: &mut [u32],
    ravel: &mut [u32],
    out: &mut [u8],
) -> Result<usize, Refused>
    requires { meaning.Room lengths.old ravel.old out.old }
    ensures { meaning.Writes result out.new }
{
    let bar = bar_from(line, at);
    if bar.is_empty() {
        return Err(refused(Wrong::Text(Fault::NoBar), bar));
    }
    let before = text(
        line,
        Token {
            start: 0,
            end: bar.start,
        },
    );
    let address = token_at(before, at);
    match number_in(Limit::Number, text(before, address)) {
        Err(wrong) => Err(refused(wrong, shown(address, at))),
        Ok(global) => write_value(
            global,
            before,
            address.end,
            line,
            bar.end,
            lengths,
            ravel,
            out,
        ),
    }
}

// The lengths are the numbers of `before` from a place on, the elements those of the line.
fn write_value(
    global: u32,
    before: &[u8],
    from: usize,
    line: &[u8],
    at: usize,
    lengths: &mut [u32],
    ravel: &mut [u32],
    out: &mut [u8],
) -> Result<usize, Refused>
    requires { (global ≤ number_limit) × meaning.Room lengths.old ravel.old out.old }
    ensures { meaning.Writes result out.new }
{
    let rank = numbers_from(Limit::Number, before, from, Wrong::Rank, lengths)?;
    write_elements(global, rank, lengths, line, at, ravel, out)
}

fn write_elements(
    global: u32,
    rank: usize,
    lengths: &[u32],
    line: &[u8],
    at: usize,
    ravel: &mut [u32],
    out: &mut [u8],
) -> Result<usize, Refused>
    requires global_le_number_limit { (global ≤ number_limit) × meaning.Room lengths.now ravel.old out.old }
    requires rank_in_bounds { (rank ≤ length lengths.now) × AtMost number_limit (take rank lengths.now) }
    ensures { meaning.Writes result out.new }
{
    let count = numbers_from(Limit::Element, line, at, Wrong::Elements, ravel)?;
    write_counted(global, rank, lengths, count, ravel, line.len(), out)
}

// There must be as many elements as the product of the lengths. The line is told whole where there are not.
fn write_counted(
    global: u32,
    rank: usize,
    lengths: &[u32],
    count: usize,
    ravel: &[u32],
    end: usize,
    out: &mut [u8],
) -> Result<usize, Refused>
    requires rank_in_bounds { (rank ≤ length lengths.now) × (count ≤ length ravel.now) × (meaning.room_out ≤ length out.old) }
    requires short { meaning.Short global (take rank lengths.now) (take count ravel.now) }
    ensures { meaning.Writes result out.new }
{
    let wanted = product(&lengths[..rank]);
    if count != wanted as usize {
        return Err(refused(Wrong::Count(count, wanted), Token { start: end, end }));
    }
    Ok(encode_load(global, &lengths[..rank], &ravel[..count], out))
}

// The first token from a place on that is a bar, or an empty one. A token has a byte or more.
fn bar_from(line: &[u8], from: usize) -> Token {
    let mut token = token_at(line, from);
    for _ in 0..line.len() {
        if token.is_empty() || is(text(line, token), b"|") {
            return token;
        }
        token = token_at(line, token.end);
    }
    token
}

// Where there is no further token, the place where one is missing.
fn shown(token: Token, at: usize) -> Token {
    if token.is_empty() {
        return Token { start: at, end: at };
    }
    token
}

fn refused(wrong: Wrong, token: Token) -> Refused {
    Refused { wrong, token }
}
