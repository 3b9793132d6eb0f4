// The report: reads a drawing on standard input and prints its counts, the top density and the members of each constraint's answer set,
// and whether any set is dense at K = -3; or the number of its refusal. A read or a write that fails ends it with an error. What is
// printed is held to stored output, and not proved.
#![tactic(auto)]

ghost use Rattle.std.specs.Prelude.{◌≤◌, length, IfOk};
ghost use Rattle.net.specs.NetFor.{Countable};

use arrays::NetArrays;
use net::net_of;
use routes::search::Marks;
use settling::answer::{answer, base};
use std::io;
use std::io::Read;

// 01: "6,000 bytes at most; that prefix gives every longer input its refusal": `longer_input_refused`, proofs/Input.antt.
const INPUT: usize = 6000;

// K: above it a set is overconstrained.
const OVERCONSTRAINED: i32 = -3;

fn main(rt: HostRuntime) -> io::Result<()> {
    let mut input = [0u8; INPUT];
    let got = read_full(rt.reader(), &mut input)?;
    report(&rt, &input[..got])
}

// Reads until the buffer is full or the input ends, and answers how many bytes there are, or the error of a read.
fn read_full<R: Read + Drop>(mut reader: R, buffer: &mut [u8]) -> io::Result<usize>
    ensures { IfOk result (λ n. n ≤ length buffer.new) }
{
    // How often is not known before: a read may bring fewer bytes than there are.
    let mut got: usize = 0;
    while got < buffer.len() {
        let more = reader.read(&mut buffer[got..])?;
        if more == 0 {
            break;
        }
        got += more;
    }
    Ok(got)
}

fn report(rt: &impl Print, drawing: &[u8]) -> io::Result<()> {
    match net_of(drawing) {
        Ok(net) => {
            println!(rt; "objects {} constraints {}", net.objects, net.constraints)?;
            let lowest = say_lines(rt, &net)?;
            say_last(rt, lowest)
        }
        Err(fault) => println!(rt; "refused {fault}"),
    }
}

// A line for each constraint. Answers the lowest-numbered one above K, if any.
fn say_lines(rt: &impl Print, net: &NetArrays) -> io::Result<Option<usize>>
    requires { Countable net.now }
{
    let from = base(net);
    let mut lowest = None;
    for c in 0..net.constraints {
        let top = answer(c, &from);
        if lowest.is_none() && top.density > OVERCONSTRAINED {
            lowest = Some(c);
        }
        print!(rt; "{c} {}", top.density)?;
        say_members(rt, net.objects, &top.marks)?;
        println!(rt)?;
    }
    Ok(lowest)
}

// The members of a set of the first n objects, ascending.
fn say_members(rt: &impl Print, n: usize, set: &Marks) -> io::Result<()> {
    for (v, mark) in set.objects.iter().take(n).enumerate() {
        if *mark > 0 {
            print!(rt; " {v}")?;
        }
    }
    Ok(())
}

fn say_last(rt: &impl Print, lowest: Option<usize>) -> io::Result<()> {
    match lowest {
        Some(c) => println!(rt; "K {OVERCONSTRAINED} dense {c}"),
        None => println!(rt; "K {OVERCONSTRAINED} none"),
    }
}
