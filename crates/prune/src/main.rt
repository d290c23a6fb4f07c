// Prints the verdicts on the rules of the file on standard input (01, "Cases").
#![tactic(auto)]

ghost use Rattle.std.specs.Prelude.{◌≡◌, ◌+◌, ◌≤◌, length, IfOk};
ghost use Rattle.std.specs.Io.{ReadsAtMost};
ghost use Rattle.printing.specs.Printed.{printed};
ghost use Rattle.rule.specs.Limits.{most_rules};
ghost use Rattle.rule_file.specs.Contents.{rules_of};

use printing::Text;
use pruning::prune;
use reading::read;
use search::{FOUND_NUMBERS, LINK_NUMBERS};
use std::io;
use std::io::{Print, Read};
use verdicts::VERDICT_BYTES;

// The most bytes that a file has.
const LONGEST: usize = 65535;

// How many rules a file has.
fn rule_count(file: &[u8]) -> usize
    ensures { (result ≡ length (rules_of file.now)) × (result ≤ most_rules) }
{
    match read(file) {
        Ok(held) => held.count,
        Err(_) => 0,
    }
}

// Room for 32 lines of 24 bytes.
const ROOM: usize = 1024;

// What the program prints on a file. What the areas hold before does not matter.
fn output(
    file: &[u8],
    found: &mut [u64; FOUND_NUMBERS],
    links: &mut [u16; LINK_NUMBERS],
    verdicts: &mut [u8; VERDICT_BYTES],
) -> Text<ROOM>
    ensures { result ≡ printed file.now }
{
    let mut text = Text::new();
    if LONGEST < file.len() {
        text.put(b"long\n");
        return text;
    }
    match prune(file, found, links, verdicts) {
        Ok(()) => text.put_lines(verdicts, rule_count(file)),
        Err(refusal) => text.put_refused(refusal),
    }
    text
}

// One read into `buf` from `at` on; it puts no byte there at the end of the input.
fn read_at<R: Read>(input: &mut R, buf: &mut [u8], at: usize) -> io::Result<usize>
    requires { at ≤ length buf.old }
    ensures { IfOk result (λ size. at + size ≤ length buf.old) }
{
    let rest = &mut buf[at..];
    input.read(rest)
}

// Reads until `buf` is full or the input ends, and gives how many bytes that are.
fn read_input<R: Read>(input: &mut R, buf: &mut [u8]) -> io::Result<usize>
    ensures { ReadsAtMost result buf.new }
{
    let mut size: usize = 0;
    // No index loop: how many bytes a read gives is known once it is made.
    while size < buf.len() {
        let more = read_at(input, buf, size)?;
        if more == 0 {
            return Ok(size);
        }
        size += more;
    }
    Ok(size)
}

// What an error says without the number that the system has for it.
fn reason_in(text: &str) -> &str {
    match text.split_once(" (os error ") {
        Some((reason, _)) => reason,
        None => text,
    }
}

// Says on standard error what failed and why. Where that cannot be said either, nothing more can be done.
fn complain(rt: &HostRuntime, what: &str, error: io::Error) {
    if let Ok(text) = format!(in rt.alloc(); "{error}") {
        let reason = reason_in(text.as_str());
        match eprintln!(rt; "prune: {what}: {reason}") {
            Ok(()) => (),
            Err(_) => (),
        }
    }
}

// Reads at most one byte more than a file may have, and prints; a read or a write that fails is said on standard error.
fn main(rt: HostRuntime) {
    let mut file = [0u8; LONGEST + 1];
    let mut found = [0u64; FOUND_NUMBERS];
    let mut links = [0u16; LINK_NUMBERS];
    let mut verdicts = [0u8; VERDICT_BYTES];
    let size = match read_input(&mut rt.stdin(), &mut file) {
        Ok(size) => size,
        Err(error) => {
            complain(&rt, "standard input", error);
            return;
        }
    };
    let text = output(&file[..size], &mut found, &mut links, &mut verdicts);
    match rt.stdout().write_all(text.as_bytes()) {
        Ok(()) => (),
        Err(error) => complain(&rt, "standard output", error),
    }
}
