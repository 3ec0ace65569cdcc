// The lines of a listing.
ghost use Rattle.std.specs.Prelude.{◌≡◌};
ghost use Rattle.page.specs.Page.{Puts};
ghost use Rattle.text.specs.Lines.{sizes_text, word_text, left_after, words_text, end_text, count_text, counts_text, total_text};

use page::Page;

pub fn sizes_line(page: &mut Page, atoms: usize, bonds: usize)
    ensures { Puts (sizes_text atoms bonds) page.old page.new }
{
    page.named(b"atoms ", atoms);
    page.named(b" bonds ", bonds);
    page.byte(b'\n');
}

// The words of a list: each ring's length, then its atoms, on a line.
pub fn rings(page: &mut Page, list: &[u16])
    ensures { Puts (words_text 0 list.now) page.old page.new }
{
    let mut left = 0;
    for &word in list {
        let word = word as usize;
        list_word(page, left, word);
        left = left_after(left, word);
    }
}

// The atoms of the present ring that are still to come after a word, where `left` were before it.
#[tactic(auto, unfolding(crate::specs::Lines::left_after))]
fn left_after(left: usize, word: usize) -> usize
    ensures { result ≡ left_after left word }
{
    if left == 0 { word } else { left - 1 }
}

// One word: a length begins a line, and the last atom ends it.
fn list_word(page: &mut Page, left: usize, word: usize)
    ensures { Puts (word_text left word) page.old page.new }
{
    if left == 0 {
        page.named(b"ring ", word);
    } else {
        page.named(b" ", word);
    }
    line_end(page, left_after(left, word));
}

// The end of the line, where no atom is left.
#[tactic(auto, using(page::proofs::Pages::puts_nothing), unfolding(crate::specs::Lines::end_text))]
fn line_end(page: &mut Page, left: usize)
    ensures { Puts (end_text left) page.old page.new }
{
    if left == 0 {
        page.byte(b'\n');
    }
}

// A line for each length that has rings.
pub fn counts(page: &mut Page, counts: &[u32])
    ensures { Puts (counts_text 0 counts.now) page.old page.new }
{
    for (length, &rings) in counts.iter().enumerate() {
        count(page, length, rings as usize);
    }
}

fn count(page: &mut Page, length: usize, rings: usize)
    ensures { Puts (count_text length rings) page.old page.new }
{
    if rings == 0 {
        return;
    }
    page.named(b"count ", length);
    page.named(b" ", rings);
    page.byte(b'\n');
}

pub fn total(page: &mut Page, rings: u32)
    ensures { Puts (total_text rings) page.old page.new }
{
    page.named(b"total ", rings as usize);
    page.byte(b'\n');
}
