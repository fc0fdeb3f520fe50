// Runs the library on recorded inputs and compares with what the Rust answered there.
// oracle/differential/src/recorded.rs describes the records on standard input, and writes them.
#![tactic(auto)]

use replay_parts::{Fields, KINDS, Kind, NOTE, PLANTED};
use std::fmt;
use std::fmt::Write;

// The descriptors of POSIX.
const STDIN_FILENO: i32 = 0;

const STDOUT_FILENO: i32 = 1;

// Standard output by the crate io. A write that fails is passed over: what comes after it is written all the same, the
// input is read to its end, and the status stays 0.
#[derive(Clone, Copy)]
struct Output;

impl fmt::Write for Output {
    fn write_str(&mut self, s: &str) -> fmt::Result {
        io::write_all(STDOUT_FILENO, s.as_bytes());
        Ok(())
    }
}

// The kinds of calls, in their order, each as it heads its line.
const NAMES: [&str; KINDS] = [
    "text: ",
    "null flag: ",
    "schema and layout: ",
    "value stored: ",
    "slot read: ",
    "row read: ",
    "row built: ",
    "fresh row: ",
    "column set: ",
    "column set null: ",
];

// The answers to the calls of a kind. Of the planted ones, which are wrong, `found` were told apart.
#[derive(Clone, Copy, Default)]
struct Tally {
    same: u64,
    different: u64,
    planted: u64,
    found: u64,
}

impl Tally {
    fn count(&mut self, same: bool, planted: bool) {
        if planted {
            self.planted = self.planted.saturating_add(1);
            self.found = self.found.saturating_add(u64::from(!same));
        } else if same {
            self.same = self.same.saturating_add(1);
        } else {
            self.different = self.different.saturating_add(1);
        }
    }
}

impl fmt::Display for Tally {
    fn fmt<W: fmt::Write>(&self, f: &mut fmt::Formatter<W>) -> fmt::Result {
        let Tally {
            same,
            different,
            planted,
            found,
        } = *self;
        write!(
            f,
            "{same} the same, {different} different; planted {planted}, found {found}"
        )
    }
}

// The tallies of the calls by their kind.
#[derive(Clone, Copy, Default)]
struct Tallies {
    calls: [Tally; KINDS],
    unknown: u64,
}

impl Tallies {
    // A record's first byte is that of a note, which is printed, or of a kind; then come its fields. An empty one fills
    // a block up.
    fn run(&mut self, record: &[u8]) {
        let Some((first, fields)) = record.split_first() else {
            return;
        };
        let number = *first % PLANTED;
        if number == NOTE {
            io::write_all(STDOUT_FILENO, Fields(fields).field());
            return;
        }
        match Kind::try_from(number) {
            Ok(kind) => {
                // Each answers for its own kinds, and false for others.
                let same = replay_parts::same(number, fields) || replay_rows::same(number, fields);
                self.calls[kind as usize].count(same, *first >= PLANTED);
            }
            Err(_) => self.unknown = self.unknown.saturating_add(1),
        }
    }

    // A block fills the buffer, and is a list of records in the form of fields.
    fn run_all(&mut self, buffer: &mut [u8]) {
        // A proved loop has to end, and nothing says that the input does.
        for _ in 0..u64::MAX {
            let size = io::read_full(STDIN_FILENO, buffer);
            if size == 0 {
                break;
            }
            for record in Fields(&buffer[..size]) {
                self.run(record);
            }
        }
    }

    fn print(&self, out: &mut Output) -> fmt::Result {
        for (name, tally) in NAMES.iter().zip(&self.calls) {
            writeln!(out, "{name}{tally}")?;
        }
        writeln!(out, "records not understood: {}", self.unknown)
    }
}

fn main() {
    let mut buffer = io::large_buffer();
    let mut tallies = Tallies::default();
    tallies.run_all(&mut buffer);
    let _ = tallies.print(&mut Output);
}
