// Replays the kept list: each line is one call and what the published crate answered, and the port must answer the same.
#![tactic(auto)]

mod line;
mod replay;

use std::io;
use std::io::Read;

// How many lines were answered as the crate does, and how many otherwise.
#[derive(Clone, Copy)]
struct Tally {
    same: u64,
    otherwise: u64,
}

// One line, which begins with the length of its rest in four digits. None where no line is left.
fn next_is_same<R: Read>(rt: &impl Print, list: &mut R) -> Option<bool> {
    let mut head = [0; 5];
    list.read_exact(&mut head).ok()?;
    let (length, _) = line::number(&head);
    let mut text = [0; 1024];
    let Some(line) = text.get_mut(..(length % 65536) as usize) else {
        return Some(false);
    };
    if list.read_exact(line).is_err() {
        return Some(false);
    }
    if replay::same_answer(line) {
        return Some(true);
    }
    // A line that can't be shown is counted all the same.
    let _ = rt.write_all(line);
    Some(false)
}

// A proved loop has to end, and nothing says that the list does: so it is bounded by more lines than there are.
fn replay_all<R: Read>(rt: &impl Print, list: &mut R) -> Tally {
    let mut tally = Tally {
        same: 0,
        otherwise: 0,
    };
    for _ in 0..1_000_000 {
        match next_is_same(rt, list) {
            Some(true) => tally.same = tally.same % 1_000_000 + 1,
            Some(false) => tally.otherwise = tally.otherwise % 1_000_000 + 1,
            None => break,
        }
    }
    tally
}

fn tell(rt: &impl Print, tally: Tally) -> io::Result<()> {
    println!(rt; "as the crate: {}", tally.same)?;
    println!(rt; "otherwise: {}", tally.otherwise)
}

// What can't be printed is let go, as there is no one to tell.
fn main(rt: HostRuntime) {
    let mut list = rt.stdin();
    let tally = replay_all(&rt, &mut list);
    let _ = tell(&rt, tally);
}
