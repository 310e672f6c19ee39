// A record of a file of imports.
ghost use Rattle.std.specs.Prelude.{◌≡◌, ℕ, ◌≤◌, List, length, take};
ghost use Rattle.imports.specs.Parsing.{parsed, Few, Usable};
ghost use Rattle.imports.specs.Records as meaning;

use crate::number::{number_at, numbers_at};
use descriptor::Descriptor;
use elements::shapes::product;

// The greatest number that can be written.
const NUMBER_LIMIT: u32 = 0x0FFF_FFFF;

// The most elements that a load may have.
const ELEMENT_LIMIT: usize = 16384;

// A record and the place after it: of a load the lengths and the elements lie in two lent slices.
#[derive(Clone, Copy)]
pub enum Record {
    Load {
        global: u32,
        rank: usize,
        count: usize,
        next: usize,
    },
    Run {
        budget: u32,
        next: usize,
    },
}

pub fn record_at(
    file: &[u8],
    place: usize,
    lengths: &mut [u32],
    ravel: &mut [u32],
) -> Option<Record>
    requires { (length lengths.old ≡ 15) × (length ravel.old ≡ 16384) }
    ensures ravel_after { parsed result lengths.new ravel.new ≡ meaning.record_at file.now place }
    ensures usable { Usable place result }
{
    let (kind, next) = number_at(file, place)?;
    match kind {
        0 => load_at(file, next, lengths, ravel),
        1 => run_at(file, next),
        _ => None,
    }
}

fn load_at(file: &[u8], place: usize, lengths: &mut [u32], ravel: &mut [u32]) -> Option<Record>
    requires { (length lengths.old ≡ 15) × (length ravel.old ≡ 16384) }
    ensures ravel_after { parsed result lengths.new ravel.new ≡ meaning.imported_load file.now place }
    ensures few { Few result }
{
    let (global, next) = number_at(file, place)?;
    let (rank, after) = number_at(file, next)?;
    lengths_at(file, after, global, rank, lengths, ravel)
}

fn lengths_at(
    file: &[u8],
    place: usize,
    global: u32,
    rank: u32,
    lengths: &mut [u32],
    ravel: &mut [u32],
) -> Option<Record>
    requires { (length lengths.old ≡ 15) × (length ravel.old ≡ 16384) }
    ensures ravel_after { parsed result lengths.new ravel.new ≡ meaning.imported_lengths file.now place global rank }
    ensures few { Few result }
{
    if 15 < rank {
        return None;
    }
    let rank = rank as usize;
    let next = numbers_at(file, place, NUMBER_LIMIT, &mut lengths[..rank])?;
    elements_at(file, next, global, rank, lengths, ravel)
}

fn elements_at(
    file: &[u8],
    place: usize,
    global: u32,
    rank: usize,
    lengths: &[u32],
    ravel: &mut [u32],
) -> Option<Record>
    requires { (rank ≤ 15) × (length lengths.now ≡ 15) × (length ravel.old ≡ 16384) }
    ensures ravel_after { parsed result lengths.now ravel.new
        ≡ meaning.imported_elements file.now place global (take rank lengths.now) }
    ensures few { Few result }
{
    let count = product(&lengths[..rank]) as usize;
    if ELEMENT_LIMIT < count {
        return None;
    }
    let next = numbers_at(file, place, Descriptor::INTEGER_LIMIT, &mut ravel[..count])?;
    Some(Record::Load {
        global,
        rank,
        count,
        next,
    })
}

fn run_at(file: &[u8], place: usize) -> Option<Record>
    ensures by_index { (lengths ravel : List ℕ) → parsed result lengths ravel ≡ meaning.imported_run file.now place }
    ensures few { Few result }
{
    let (budget, next) = number_at(file, place)?;
    Some(Record::Run { budget, next })
}
