// A unit on the bench: each line of the input is a request, and each line of the output its reply.
#![tactic(auto)]

use bench_unit::BenchUnit;
use lines::buffer::LineBuffer;
use lines::input::each_line;
use lines::spell;
use std::io;
use std::io::BufReader;

// Prints the reply to one line; a line that spells no octets is not sent to the unit.
fn answer(rt: &HostRuntime, unit: &mut BenchUnit, line: &LineBuffer) -> io::Result<()> {
    let Some(octets) = line.octets() else {
        return println!(rt; "bad line");
    };
    let answer = unit.ask(&octets);
    let reply = spell(rt.alloc(), unit.reply(answer.length))?;
    println!(rt; "{reply}")
}

fn main(rt: HostRuntime) -> io::Result<()> {
    let mut unit = BenchUnit::at_factory();
    each_line(BufReader::new(rt.alloc(), rt.stdin())?, |line| {
        answer(&rt, &mut unit, line)
    })
}
