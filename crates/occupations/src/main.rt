// Prints a list of platform occupations: the rows from standard input, a line for each to standard output, or the line
// of a refusal.
#![tactic(auto)]

ghost use Rattle.std.specs.Prelude.{◌≤◌, length};

// The descriptors of POSIX.
const STDIN_FILENO: i32 = 0;

const STDOUT_FILENO: i32 = 1;

// One byte more than a list may have: it is enough to refuse a longer one.
const INPUT_LIMIT: usize = 32769;

fn read_list(input: &mut [u8]) -> usize
    ensures { result ≤ length input.new }
{
    if input.len() < INPUT_LIMIT {
        return 0;
    }
    io::read_full(STDIN_FILENO, &mut input[..INPUT_LIMIT])
}

// A valid list needs at most 64,512 bytes of output, so that none is refused for the room.
fn main() {
    let mut input = io::large_buffer();
    let n = read_list(&mut input);
    let mut out = io::large_buffer();
    if let Ok(size) = occupation_list::report(&input[..n], &mut out) {
        if let Some(lines) = out.get(..size) {
            io::write_all(STDOUT_FILENO, lines);
        }
    }
}
