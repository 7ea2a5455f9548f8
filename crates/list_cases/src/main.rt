// Lists each file of data/ as `framelist` and as `salvagelist` do, behind a line with the file's name.
#![tactic(auto)]

use dss_frame::Rules;
use std::rt::Files;
use std::{fs, io};

const NAMES: [&str; 19] = [
    "empty",
    "largest",
    "too_long",
    "not_whole",
    "not_whole_type",
    "dead_length",
    "magic",
    "type",
    "length",
    "ahead_magic",
    "ahead_type",
    "ahead_length",
    "absorbed",
    "own_object",
    "noreply",
    "marker",
    "spoilt",
    "connect",
    "errors",
];

// Says on standard error what failed, and why: what std says of it, without the number that it puts behind. Each program has it: no clause could say
// what is written to standard error, and a public function has one.
fn fail(rt: &(impl Eprint + Alloc), what: &str, error: &io::Error) -> io::Result<()> {
    let said = format!(in rt.alloc(); "{error}")?;
    let text = said.as_str();
    let why = text.rsplit_once(" (os error ").map_or(text, |(why, _)| why);
    eprintln!(rt; "{what}: {why}")
}

fn list_as(rt: &(impl Files + Print + Eprint + Alloc), name: &str, rules: Rules) {
    match fs::open(rt, name) {
        Ok(mut file) => show::show(rt, &mut file, rules),
        Err(error) => {
            let _ = fail(rt, name, &error);
        }
    }
}

fn main(rt: HostRuntime) {
    for name in NAMES {
        let _ = rt.println(name);
        list_as(&rt, name, Rules::Reader);
        list_as(&rt, name, Rules::Salvage);
    }
}
