// The account of a session at the bench, where two units stand: a line that begins `# ` is words, one that begins `## ` is
// words and turns to the other unit, any other is a request to the unit that was turned to.
#![tactic(auto)]

use bench_unit::BenchUnit;
use lines::buffer::LineBuffer;
use lines::input::each_line;
use lines::spell;
use readings::{Reading, read};
use std::io;
use std::io::BufReader;
use std::mem::swap;

mod layout;

use layout::{NumberList, laid_out};

// The unit that requests go to, and the other.
#[derive(Drop)]
struct Bench {
    here: BenchUnit,
    other: BenchUnit,
}

// What the reply says, and an empty line.
fn tell_reply(rt: &HostRuntime, reply: &[u8]) -> io::Result<()> {
    let spelled = spell(rt.alloc(), reply)?;
    let shown = laid_out(rt.alloc(), spelled.as_bytes())?;
    println!(rt; "  < {shown}")?;
    match read(rt.alloc(), reply)? {
        Reading::Done => println!(rt; "  done\n"),
        Reading::Numbers(numbers) => {
            let list = NumberList {
                numbers: numbers.as_slice(),
            };
            println!(rt; "  answered: {list}\n")
        }
        Reading::Block(id) => println!(rt; "  answered: a block, data ID {id}\n"),
        Reading::Refused(fault) => println!(rt; "  refused: {fault}\n"),
        Reading::Unclear => println!(rt; "  no reply of a unit\n"),
    }
}

fn tell_typed(rt: &HostRuntime, line: &LineBuffer) -> io::Result<()> {
    if line.is_empty() {
        return println!(rt; "  > (an empty line)");
    }
    let shown = laid_out(rt.alloc(), line.text())?;
    println!(rt; "  > {shown}")
}

// The request, and what came of it.
fn tell_request(rt: &HostRuntime, unit: &mut BenchUnit, line: &LineBuffer) -> io::Result<()> {
    tell_typed(rt, line)?;
    let Some(octets) = line.octets() else {
        return println!(rt; "  bad line: not sent to the unit\n");
    };
    let answer = unit.ask(&octets);
    tell_reply(rt, unit.reply(answer.length))
}

fn tell(rt: &HostRuntime, bench: &mut Bench, line: &LineBuffer) -> io::Result<()> {
    match line.text() {
        [b'#', b' ', words @ ..] => rt.println(laid_out(rt.alloc(), words)?),
        [b'#', b'#', b' ', words @ ..] => {
            swap(&mut bench.here, &mut bench.other);
            rt.println(laid_out(rt.alloc(), words)?)
        }
        _ => tell_request(rt, &mut bench.here, line),
    }
}

fn main(rt: HostRuntime) -> io::Result<()> {
    let mut bench = Bench {
        here: BenchUnit::at_factory(),
        other: BenchUnit::at_factory(),
    };
    each_line(BufReader::new(rt.alloc(), rt.stdin())?, |line| {
        tell(&rt, &mut bench, line)
    })
}
