// The lines of a file and their columns. What stands in a file from a line on is a slice: an empty one, where there is no such line.
#![tactic(auto)]

pub mod columns;

ghost use Rattle.std.specs.Prelude.{◌≡◌, ◌==◌, position};
ghost use Rattle.molfile.specs.Lines.{line_feed, line_of, past_line, from_line};

// What stands in a file from line `many` on.
#[tactic(auto, unfolding(molfile::specs::Lines::from_line))]
pub fn skip(file: &[u8], many: usize) -> &[u8]
    ensures { result.now ≡ from_line file.now many }
{
    let mut rest = file;
    for _k in 0..many {
        rest = past_line(rest);
    }
    rest
}

// What comes after the line that the bytes begin with.
pub fn past_line(bytes: &[u8]) -> &[u8]
    ensures { result.now ≡ past_line bytes.now }
{
    match feed_at(bytes) {
        Some(end) => &bytes[end + 1..],
        None => &[],
    }
}

// The line that the bytes begin with, without its end.
pub fn line(bytes: &[u8]) -> &[u8]
    ensures { result.now ≡ line_of bytes.now }
{
    match feed_at(bytes) {
        Some(end) => {
            let whole = &bytes[..end];
            whole.strip_suffix(b"\r").unwrap_or(whole)
        }
        None => bytes,
    }
}

// Where the first line feed is.
fn feed_at(bytes: &[u8]) -> Option<usize>
    ensures { result ≡ position (λ byte. byte == line_feed) bytes.now }
{
    bytes.iter().position(|byte| *byte == b'\n')
}
