//! Lists of words.
ghost use Rattle.std.specs.Prelude.{◌≡◌, ℕ, List, IfOk, vec_items, Option};
ghost use Rattle.std.specs.Bool.{then_some};
ghost use Rattle.std.specs.Option.{option_map};
ghost use Rattle.listing.specs.Lists.{list_in, list_onto, inner_onto, with_read};

use std::alloc::{AllocError, Global};
use syntax::parse::split_at_first;

// What takes in the words of a list, one after another.
pub trait Words {
    // What it holds, as its meaning.
    ghost Held: { Type 0 };

    ghost held: { Self → Held };

    // What it holds once a word is taken in too, none where that is no word of its kind.
    ghost with: { Held → List ℕ → Option Held };

    // Takes in a word; answers whether it is one of its kind.
    fn take(&mut self, heap: Global, word: &[u8]) -> Result<bool, AllocError>
        ensures { IfOk result (λ b. then_some b (held self.new) ≡ with (held self.old) word.now) };
}

// Takes in the words of a list, up to the first that is none of their kind; answers whether it is a
// list of such words.
pub fn read_list<W: Words>(heap: Global, list: &[u8], words: &mut W) -> Result<bool, AllocError>
    ensures { IfOk result (λ b. then_some b (W.held words.new) ≡ list_onto W.with (W.held words.old) list.now) }
{
    match list {
        [b'[', inner @ .., b']'] => read_words(heap, inner, words),
        _ => Ok(false),
    }
}

// Takes in the words between commas; nothing is no word at all.
fn read_words<W: Words>(heap: Global, inner: &[u8], words: &mut W) -> Result<bool, AllocError>
    ensures { IfOk result (λ b. then_some b (W.held words.new) ≡ inner_onto W.with (W.held words.old) inner.now) }
{
    if inner.is_empty() {
        return Ok(true);
    }
    // kept by hand: a `for` over `inner.split(..)` can be given no invariant in generic code
    let mut rest = inner;
    while let Some((word, behind)) = split_at_first(rest, b',') {
        if !words.take(heap, word)? {
            return Ok(false);
        }
        rest = behind;
    }
    words.take(heap, rest)
}

// How items of a kind are written as words.
pub trait Notation {
    type Item: Copy;

    // The item that a word is, none where it is no such word.
    ghost reads: { List ℕ → Option Self.Item };

    fn parse(word: &[u8]) -> Option<Self::Item>
        ensures { result ≡ reads word.now };
}

// The items that words are, in their order.
#[derive(Drop)]
struct ItemWords<N: Notation> {
    items: Vec<N::Item>,
}

impl<N: Notation> Words for ItemWords<N> {
    ghost Held = { List N.Item };

    ghost held = { λ l. l.items.items };

    ghost with = { with_read N.reads };

    fn take(&mut self, heap: Global, word: &[u8]) -> Result<bool, AllocError> {
        match N::parse(word) {
            Some(item) => {
                self.items.push(item)?;
                Ok(true)
            }
            None => Ok(false),
        }
    }
}

// The list that a word is, none where it is no list of such words.
pub fn parse_list<N: Notation>(
    heap: Global,
    word: &[u8],
) -> Result<Option<Vec<N::Item>>, AllocError>
    ensures { IfOk result (λ o. option_map vec_items o ≡ list_in N.Notation.reads word.now) }
{
    let mut list = ItemWords::<N> {
        items: Vec::new(heap),
    };
    Ok(read_list(heap, word, &mut list)?.then_some(list.items))
}
