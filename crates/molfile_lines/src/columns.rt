// The number columns of a line: blanks, then at least one digit, to the end of the three.
#![tactic(auto, unfolding(molfile::specs::Columns::is_digit, molfile::specs::Columns::number_at, molfile::specs::Columns::value_at))]

ghost use Rattle.std.specs.Prelude.{◌≡◌, ◌≤◌, get_or};
ghost use Rattle.std.specs.Bool.{then_some};
ghost use Rattle.molfile.specs.Columns.{is_number, number_at, value_at, columns};
ghost use Rattle.molfile.specs.Molfile.{first_at, second_at};
ghost use Rattle.molfile.specs.Judging.{two_numbers};

// The two numbers of a line, where both its number columns hold one.
#[tactic(auto, using(std::proofs::lemmas::Bool::Decides::nat_tests), unfolding(molfile::specs::Judging::two_numbers))]
pub fn two_numbers(line: &[u8]) -> Option<(u16, u16)>
    ensures { result ≡ then_some (two_numbers line.now) (value_at line.now first_at, value_at line.now second_at) }
{
    if number_at(line, molfile::FIRST_AT) && number_at(line, molfile::SECOND_AT) {
        Some(values(line))
    } else {
        None
    }
}

// What its two number columns are worth, whatever they hold.
pub fn values(line: &[u8]) -> (u16, u16)
    ensures { result ≡ (value_at line.now first_at, value_at line.now second_at) }
{
    (
        value_at(line, molfile::FIRST_AT),
        value_at(line, molfile::SECOND_AT),
    )
}

// Whether the three columns from i on hold a number.
// Kept: the bound on i stands here and in two contracts below; an enum of the two places where a number begins would be no plainer.
fn number_at(line: &[u8], i: usize) -> bool
    requires { i ≤ second_at }
    ensures { result ≡ number_at line.now i }
{
    is_number(columns(line, i))
}

// What the three columns from i on are worth; a byte below the digits, as a blank is, is worth 0.
fn value_at(line: &[u8], i: usize) -> u16
    requires { i ≤ second_at }
    ensures { result ≡ value_at line.now i }
{
    let [hundreds, tens, ones] = columns(line, i).map(|byte| u16::from(byte.saturating_sub(b'0')));
    100 * hundreds + 10 * tens + ones
}

// The three columns from i on; one past the line's end is 0.
fn columns(line: &[u8], i: usize) -> [u8; 3]
    requires { i ≤ second_at }
    ensures { result ≡ columns line.now i }
{
    [column(line, i), column(line, i + 1), column(line, i + 2)]
}

// Column i, or 0 past the line's end.
// Kept: 0 and no Option, since what three columns are worth is stated of a line of any length, whose missing columns are 0.
fn column(line: &[u8], i: usize) -> u8
    ensures { result ≡ get_or line.now i 0 }
{
    line.get(i).copied().unwrap_or(0)
}

// Whether three columns are a number.
fn is_number(bytes: [u8; 3]) -> bool
    ensures { result ≡ is_number bytes }
{
    matches!(
        bytes,
        [b' ', b' ', b'0'..=b'9'] | [b' ' | b'0'..=b'9', b'0'..=b'9', b'0'..=b'9']
    )
}
