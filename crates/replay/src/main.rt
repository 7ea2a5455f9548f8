// Replays the Rust's recorded answers to the calls that no exported function makes, those over rows of structs, an object's data
// and the walker (data/answers.bin; data/README says how they are made): each call again, with the same input and the same lent
// buffers, and what it returns, its words and what every byte of room and row then holds compared. Says which answers
// differ, the first few of them, and last how many there are and how many differ.
#![tactic(auto)]

mod calls; // calls.rt: the calls by number
mod frames; // frames.rt: all frames, the salvage reading
mod objects; // objects.rt: all objects, all parameters
mod parts; // parts.rt: an object's data, a walk over parameters
mod turn; // turn.rt: one answer
mod walker; // walker.rt: a walker, made, moved and asked
mod words; // words.rt: an answer, and a row's records, in words

use replay_list::number::number_at;
use show::{read_full, zeros};
use std::{fs, io};
use turn::{Buffers, replayed};

// As many answers that differ are named.
const NAMED: u64 = 10;

// More than the list has.
const LIST: usize = 655360;

// How many answers there are, how many differ, and whether the list ends behind them; the counts are told either way.
#[derive(Drop)]
struct Tally {
    answers: u64,
    different: u64,
    whole: bool,
}

// How many differ after one more answer. One of the first few that differ is named.
fn noted(rt: &impl Print, same: bool, different: u64, index: u64) -> u64 {
    if same {
        return different;
    }
    if different < NAMED {
        let _ = println!(rt; "different: answer {index}");
    }
    different.saturating_add(1)
}

// All answers, one behind the other.
fn replay(rt: &impl Print, list: &[u8]) -> Tally {
    let mut buffers = Buffers::new();
    let count = number_at(list, 0);
    let mut next = count.next;
    let mut different = 0;
    for index in 0..count.value {
        if list.len() <= next {
            return Tally {
                answers: index,
                different,
                whole: false,
            };
        }
        let one = replayed(list, next, &mut buffers);
        different = noted(rt, one.same, different, index);
        next = one.next;
    }
    Tally {
        answers: count.value,
        different,
        whole: next == list.len(),
    }
}

fn say(rt: &impl Print, tally: Tally) {
    if !tally.whole {
        let _ = rt.println("the list ends elsewhere");
    }
    let Tally {
        answers,
        different,
        ..
    } = tally;
    let _ = println!(rt; "{answers} answers, {different} different");
}

// Says on standard error what failed, and why: what std says of it, without the number that it puts behind. Each program has it: no
// clause could say what is written to standard error, and a public function has one.
fn fail(rt: &(impl Eprint + Alloc), what: &str, error: &io::Error) -> io::Result<()> {
    let said = format!(in rt.alloc(); "{error}")?;
    let text = said.as_str();
    let why = text.rsplit_once(" (os error ").map_or(text, |(why, _)| why);
    eprintln!(rt; "{what}: {why}")
}

fn main(rt: HostRuntime) {
    let path = "answers.bin";
    match fs::open(&rt, path) {
        Ok(mut file) => {
            let mut list = zeros::<LIST>();
            // what a read that fails left is replayed, and the list then ends elsewhere
            let n = read_full(&mut file, &mut list).unwrap_or_else(|cut| cut.count);
            say(&rt, replay(&rt, &list[..n]));
        }
        Err(error) => {
            let _ = fail(&rt, path, &error);
        }
    }
}
