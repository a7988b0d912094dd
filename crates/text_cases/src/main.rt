// Runs the text program on each case of data/, case00.txt and on, twice: once on all bytes that a read brings, and once
// on one byte after another. The answers must be the same, and those that stdout has. Then the case is handed over in
// bursts.
#![tactic(auto)]

mod bursts;

ghost use Rattle.std.specs.Prelude.{◌<◌};

use std::alloc::{AllocError, Global};
use std::{fs, io};

// The name of a case's file.
fn name_of(alloc: Global, n: usize) -> Result<String, AllocError> {
    format!(in alloc; "case{:02}.txt", n % 100)
}

// A heading: the case's number, and what is done with it.
fn show_heading(rt: &HostRuntime, n: usize, after: &str) -> io::Result<()> {
    print!(rt; "== {:02}{after}", n % 100)
}

// Runs a case under a heading; answers whether it is there.
fn run_case(rt: &HostRuntime, n: usize, after: &str, piece: usize) -> io::Result<bool>
    requires { 0 < piece }
{
    let name = name_of(rt.alloc(), n)?;
    let Ok(mut file) = fs::open(rt, &name) else {
        return Ok(false);
    };
    show_heading(rt, n, after)?;
    text_session::run(&mut file, &mut rt.stdout(), piece);
    Ok(true)
}

// The case in bursts, in a line.
fn run_bursts(rt: &HostRuntime, n: usize) -> io::Result<()> {
    let name = name_of(rt.alloc(), n)?;
    show_heading(rt, n, " in bursts: ")?;
    bursts::run_case(rt, name.as_str());
    Ok(())
}

fn main(rt: HostRuntime) -> io::Result<()> {
    for n in 0..100 {
        if !run_case(&rt, n, "\n", 65536)? {
            break;
        }
        run_case(&rt, n, " by bytes\n", 1)?;
        run_bursts(&rt, n)?;
    }
    Ok(())
}
