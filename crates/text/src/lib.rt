// The lines that the listing program prints, written on a page.
#![tactic(auto)]

mod lines;

ghost use Rattle.page.specs.Page.{Puts};
ghost use Rattle.text.specs.Lines.{listing_text, refusal_text};

use network::Answer;
use page::Page;
use ring::Ring;

// A listing: atoms and bonds, the words of the list, the counts by length, the total.
pub fn listing(
    atoms: usize,
    bonds: usize,
    list: &[u16],
    counts: [u32; Ring::LENGTH + 1],
    total: u32,
    page: &mut Page,
)
    ensures { Puts (listing_text atoms bonds list.now counts total) page.old page.new }
{
    lines::sizes_line(page, atoms, bonds);
    lines::rings(page, list);
    lines::counts(page, &counts);
    lines::total(page, total);
}

// A refusal: its number, row and place.
pub fn refusal(answer: Answer, page: &mut Page)
    ensures { Puts (refusal_text answer) page.old page.new }
{
    let Answer { code, row, place } = answer;
    page.named(b"refused ", code as usize);
    page.named(b" ", row);
    page.named(b" ", place);
    page.byte(b'\n');
}
