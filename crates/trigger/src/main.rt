// Reads a trading day as text, makes every call in the order of the lines, and prints every answer.
#![tactic(auto)]

mod answering;
mod cutting;
mod house;
mod input;
mod kind;
mod line;
mod making;
mod settings;
mod slip_desk;
mod unreadable;
mod words;

use answering::{print_answer, print_unreadable};
use house::House;
use input::{ByteLines, InputLine, read_all, text_of};
use line::{Line, read_line};
use making::{vacant_repeating, vacant_single};
use settings::Settings;
use slip_desk::vacant_rows;
use std::alloc::Global;
use std::{env, io};
use unreadable::{ReadFault, Unreadable};

fn read_bytes(heap: Global, bytes: &[u8]) -> Result<Option<Line>, ReadFault> {
    read_line(heap, text_of(bytes)?)
}

// What a line asks for, or why it cannot be read: nothing where it has no word.
fn read(heap: Global, line: InputLine) -> io::Result<Option<Result<Line, Unreadable>>> {
    match read_bytes(heap, line.bytes) {
        Ok(asked) => Ok(asked.map(Ok)),
        Err(ReadFault::Unreadable(reason)) => Ok(Some(Err(reason))),
        Err(ReadFault::Memory(wanting)) => Err(wanting.into()),
    }
}

// Answers the lines before the first call, and hands the first call's line on.
fn set_up<'a>(
    rt: &HostRuntime,
    lines: &mut ByteLines<'a>,
    settings: &mut Settings,
) -> io::Result<Option<InputLine<'a>>> {
    for line in lines {
        match read(rt.alloc(), line)? {
            None => {}
            Some(Err(reason)) => print_unreadable(rt, line.number, reason)?,
            Some(Ok(asked)) => {
                let Some((head, answer)) = settings.answer(&asked) else {
                    return Ok(Some(line));
                };
                print_answer(rt, head, answer)?;
            }
        }
    }
    Ok(None)
}

// Makes the calls of the first call's line and of those after it.
fn make_calls(
    rt: &HostRuntime,
    house: &mut House,
    first: Option<InputLine>,
    lines: ByteLines,
) -> io::Result<()> {
    for line in first.into_iter().chain(lines) {
        if let Some(asked) = read(rt.alloc(), line)? {
            house.take(rt, line.number, asked)?;
        }
    }
    house.end_burst(rt)
}

fn serve(rt: &HostRuntime, path: Option<&str>) -> io::Result<()> {
    let bytes = read_all(rt, path)?;
    let mut lines = ByteLines::new(bytes.as_slice());
    let mut settings = Settings::new();
    let first = set_up(rt, &mut lines, &mut settings)?;
    let mut single = vacant_rows(rt.alloc(), settings.rows, vacant_single())?;
    let mut grid = vacant_rows(rt.alloc(), settings.rows, vacant_repeating())?;
    let mut house = House::new(
        rt.alloc(),
        single.as_mut_slice(),
        grid.as_mut_slice(),
        settings,
    );
    let done = make_calls(rt, &mut house, first, lines);
    house.close(rt, done)
}

fn main(rt: HostRuntime) -> io::Result<()> {
    let argument = env::args(&rt)?.nth(1);
    match argument.as_ref().map(|word| word.as_str()) {
        Some("--help") => rt.println(
            "trigger [FILE]: reads a trading day from FILE or the standard input and prints every answer. docs/DAY-FILE.md has the lines.",
        ),
        path => serve(&rt, path),
    }
}
