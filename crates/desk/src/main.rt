//! The desk: runs a script of steps on a site, and reports what came of each.
#![tactic(auto)]

use cabinet::{Strip, Tray};
use entries::{CardChange, HoursChange};
use kinds::Written;
use script::Script;
use serving::{Desk, serve};
use setup::{KindName, Setup, Store};
use std::alloc::Global;
use std::env;
use std::fs::File;
use std::io::{BufRead, BufReader, BufWriter, Read, Write};
use std::process::ExitCode;
use troubles::Trouble;

mod cabinets;
mod fates;
mod kinds;
mod memory;
mod orders;
mod report;
mod script;
mod serving;
mod setup;
mod showing;
mod spelling;
mod statement;
mod troubles;
mod views;
mod words;

// Serves a script of one kind of change, with the cabinet that its first line names.
fn open<E: Written, R: BufRead + Drop, O: Write>(
    heap: Global,
    setup: Setup,
    script: &mut Script<R>,
    out: &mut O,
) -> Result<(), Trouble> {
    match setup.store {
        Store::Tray { left } => {
            let mut tray = Tray::new([left; 7]);
            serve(Desk::<E, _, _>::new(heap, setup, &mut tray, out)?, script)
        }
        Store::Strip { bytes } => {
            let mut memory = vec![in heap; 0; bytes as usize]?;
            let mut strip = Strip::new(memory.as_mut_slice());
            serve(Desk::<E, _, _>::new(heap, setup, &mut strip, out)?, script)
        }
    }
}

fn work<R: Read + Drop, O: Write>(heap: Global, source: R, out: &mut O) -> Result<(), Trouble> {
    let mut script = Script::new(BufReader::new(heap, source)?, heap);
    let Some(setup) = script.next::<Setup>()? else {
        return Err(script.expected(setup::FORM));
    };
    match setup.kind {
        KindName::Cards => open::<CardChange, _, _>(heap, setup, &mut script, out),
        KindName::Hours => open::<HoursChange, _, _>(heap, setup, &mut script, out),
    }
}

fn work_file<O: Write>(rt: &HostRuntime, name: String, out: &mut O) -> Result<(), Trouble> {
    let done = match File::open(rt, name.as_str()) {
        Ok(file) => work(rt.alloc(), file, out),
        Err(error) => Err(Trouble::Reading(error)),
    };
    done.map_err(|trouble| trouble.in_file(name))
}

// Takes the script from the file that the program is given, or else from standard input.
fn begin(rt: &HostRuntime) -> Result<(), Trouble> {
    let mut args = env::args(rt)?.skip(1);
    let name = args.next();
    if args.next().is_some() {
        return Err(Trouble::Arguments);
    }
    let mut out = BufWriter::new(rt.alloc(), rt.stdout())?;
    let done = match name {
        Some(name) => work_file(rt, name, &mut out),
        None => work(rt.alloc(), rt.stdin(), &mut out),
    };
    out.flush()?;
    done
}

fn main(rt: HostRuntime) -> ExitCode {
    match begin(&rt) {
        Ok(()) => ExitCode::SUCCESS,
        Err(trouble) => {
            let _ = rt.stderr().println(&trouble);
            ExitCode::FAILURE
        }
    }
}
