// Requests to one table, a line each: a set or a set block edits it, any other request reads it. Each reply is a line,
// and after a refusal one more says whether a cell changed.
#![tactic(auto)]

use lines::buffer::LineBuffer;
use lines::input::each_line;
use lines::spell;
use std::io;
use std::io::BufReader;

mod desk;
#[cfg(test)]
mod tests;

use desk::Desk;

fn answer(rt: &HostRuntime, desk: &mut Desk, line: &LineBuffer) -> io::Result<()> {
    let Some(octets) = line.octets() else {
        return println!(rt; "bad line");
    };
    let before = desk.table;
    let answer = match octets.as_slice() {
        [2 | 4, ..] => desk.edit(&octets),
        _ => desk.read(&octets),
    };
    let reply = spell(rt.alloc(), desk.reply(answer.length))?;
    println!(rt; "{reply}")?;
    if answer.number == 0 {
        return Ok(());
    }
    if desk.table == before {
        println!(rt; "no cell changed")
    } else {
        println!(rt; "cells changed")
    }
}

fn main(rt: HostRuntime) -> io::Result<()> {
    let mut desk = Desk::at_factory();
    each_line(BufReader::new(rt.alloc(), rt.stdin())?, |line| {
        answer(&rt, &mut desk, line)
    })
}
